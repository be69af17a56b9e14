// The quantifiers of a block's commands.
ghost use Rattle.std.specs.Prelude.{◌≡◌, ◌++◌, OnOk, true, false, option_map};
ghost use Rattle.rml_terms.specs.Tree.{expr_tree, expr_trees, exprs_of};
ghost use Rattle.rml_syntax.specs.Tree.{command_tree, command_trees};
ghost use Rattle.rml_syntax.specs.Tree.{block_of};
ghost use Rattle.rml_quantifiers.specs.Quantifiers.{quantifiers_in, quantifiers_in_each};
ghost use Rattle.rml_quantifiers.specs.Quantifiers.{quantifiers_of, quantifiers_of_block, quantifiers_of_side};

use crate::expressions::{add_quantifiers, add_quantifiers_each};
use base::Mem;
use rml_syntax::Command;
use rml_terms::Expr;

/// Adds the places of the quantifiers of a block's commands that may not stand there.
#[cycle(blocks)]
pub fn add_block_quantifiers(commands: &[Command], places: &mut Vec<u64>) -> Mem<()>
    ensures { OnOk result (places.new.items ≡ places.old.items
        ++ quantifiers_of_block (block_of (command_trees commands.now))) }
{
    for command in commands {
        add_command_quantifiers(command, places)?;
    }
    Ok(())
}

#[cycle(blocks)]
#[tactic(auto, using(std::proofs::Common::append_assoc))]
fn add_command_quantifiers(command: &Command, places: &mut Vec<u64>) -> Mem<()>
    ensures { OnOk result (places.new.items ≡ places.old.items ++ quantifiers_of (command_tree command.now)) }
{
    match command {
        Command::Skip(_) => Ok(()),
        Command::Abort(_) => Ok(()),
        Command::Assume(_, e) => {
            add_quantifiers(false, e, places)?;
            Ok(())
        }
        Command::Assert(_, e) => {
            add_quantifiers(false, e, places)?;
            Ok(())
        }
        Command::If(_, e, a, b) => {
            add_quantifiers(false, e, places)?;
            add_block_quantifiers(a, places)?;
            add_block_quantifiers(b, places)?;
            Ok(())
        }
        Command::Choose(_, branches) => {
            for branch in branches {
                add_block_quantifiers(branch, places)?;
            }
            Ok(())
        }
        Command::Insert(_, _, args) => {
            add_quantifiers_each(true, args, places)?;
            Ok(())
        }
        Command::Remove(_, _, args) => {
            add_quantifiers_each(true, args, places)?;
            Ok(())
        }
        Command::Put(_, _, args, e) => {
            add_put_quantifiers(args, e, places)?;
            Ok(())
        }
        Command::Assign(_, _, value) => {
            add_side_quantifiers(value, places)?;
            Ok(())
        }
    }
}

// All quantifiers of the arguments of a `put`, and of its value.
#[tactic(auto, using(std::proofs::Common::append_assoc))]
fn add_put_quantifiers(args: &[Expr], value: &Expr, places: &mut Vec<u64>) -> Mem<()>
    ensures { OnOk result (places.new.items ≡ places.old.items
        ++ (quantifiers_in_each true (exprs_of (expr_trees args.now)) ++ quantifiers_in true (expr_tree value.now))) }
{
    add_quantifiers_each(true, args, places)?;
    add_quantifiers(true, value, places)?;
    Ok(())
}

// The quantifiers on the right of an assignment, where there is a right side.
fn add_side_quantifiers(value: &Option<Expr>, places: &mut Vec<u64>) -> Mem<()>
    ensures { OnOk result (places.new.items ≡ places.old.items
        ++ quantifiers_of_side (option_map expr_tree value.now)) }
{
    if let Some(e) = value {
        add_quantifiers(true, e, places)?;
    }
    Ok(())
}
