// Blocks: the first fault of their commands, in the order of reading.
ghost use Rattle.std.specs.Prelude.{◌≡◌, length};
ghost use Rattle.rml_syntax.specs.Tree.{command_tree, command_trees, block_of};
ghost use Rattle.rml_syntax.specs.Within.{CommandWithin, BlockWithin};
ghost use Rattle.rml_syntax.specs.Shape.{CommandNests, BlockNests};
ghost use Rattle.rml_sort_check.specs.Demands.{first_fault, command_demands, block_demands};
ghost use Rattle.rml_names.specs.Drafts.{words_in};
ghost use Rattle.rml_names.specs.Sound.{IsSorted};
ghost use Rattle.rml_terms.specs.Shape.{max_nesting};

use rml_lex::Fault;
use rml_names::Declarations;
use rml_sort_check::{assign_fault, put_fault, sentence_fault, tuple_fault};
use rml_syntax::{Command, Format};

#[cycle(judging)]
fn command_fault(text: &[u8], known: &Declarations, format: Format, c: &Command) -> Option<Fault>
    requires nests { CommandNests max_nesting (command_tree c.now) }
    requires within { CommandWithin (length text.now) (command_tree c.now) }
    requires sound { IsSorted (words_in known.now) }
    ensures { result ≡ first_fault (command_demands text.now (words_in known.now) format (command_tree c.now)) }
{
    match c {
        Command::Skip(_) | Command::Abort(_) => None,
        Command::Assume(_, e) => sentence_fault(text, known, e),
        Command::Assert(_, e) => sentence_fault(text, known, e),
        Command::If(_, e, a, b) => {
            if let Some(fault) = sentence_fault(text, known, e) {
                return Some(fault);
            }
            if let Some(fault) = block_fault(text, known, format, a) {
                return Some(fault);
            }
            block_fault(text, known, format, b)
        }
        Command::Choose(_, all) => {
            for b in all {
                if let Some(fault) = block_fault(text, known, format, b) {
                    return Some(fault);
                }
            }
            None
        }
        Command::Insert(_, name, args) => tuple_fault(text, known, *name, args),
        Command::Remove(_, name, args) => tuple_fault(text, known, *name, args),
        Command::Put(_, name, args, value) => put_fault(text, known, *name, args, value),
        Command::Assign(name, parameters, value) => {
            assign_fault(text, known, format, *name, parameters, value)
        }
    }
}

/// The first fault of a block's commands.
#[cycle(judging)]
pub fn block_fault(
    text: &[u8],
    known: &Declarations,
    format: Format,
    commands: &[Command],
) -> Option<Fault>
    requires nests { BlockNests max_nesting (block_of (command_trees commands.now)) }
    requires within { BlockWithin (length text.now) (block_of (command_trees commands.now)) }
    requires sound { IsSorted (words_in known.now) }
    ensures { result ≡ first_fault
        (block_demands text.now (words_in known.now) format (block_of (command_trees commands.now))) }
{
    for c in commands {
        if let Some(fault) = command_fault(text, known, format, c) {
            return Some(fault);
        }
    }
    None
}
