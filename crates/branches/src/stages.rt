// The block of a stage in a tree.
ghost use Rattle.std.specs.Prelude.{◌≡◌, [], slice_get, option_map, option_to_list};
ghost use Rattle.rml_syntax.specs.Tree.{command_trees, item_tree, item_trees, file_tree};
ghost use Rattle.branches.specs.Search.{init_in, last_init, final_in, last_final, action_of, actions_of};
ghost use Rattle.branches.specs.Search.{stage_commands};

use rml_command::Stage;
use rml_syntax::{Command, Item, Tree};

// An `init` in the place of what was found before.
fn init_in<'a>(found: &'a [Command], item: &'a Item) -> &'a [Command]
    ensures { command_trees result.now ≡ init_in (command_trees found.now) (item_tree item.now) }
{
    match item {
        Item::Init(_, commands) => commands,
        Item::Sort(_, _) => found,
        Item::Relation(_, _) => found,
        Item::Function(_, _, _) => found,
        Item::Variable(_, _) => found,
        Item::Axiom(_, _) => found,
        Item::Conjecture(_, _) => found,
        Item::Action(_, _) => found,
        Item::Final(_, _) => found,
        Item::Define(_, _, _) => found,
    }
}

// The commands of the last `init`.
fn init_commands(items: &[Item]) -> &[Command]
    ensures { command_trees result.now ≡ last_init [] (item_trees items.now) }
{
    let mut found: &[Command] = &[];
    let mut rest = items;
    while let [item, after @ ..] = rest {
        found = init_in(found, item);
        rest = after;
    }
    found
}

// A `final` in the place of what was found before.
fn final_in<'a>(found: &'a [Command], item: &'a Item) -> &'a [Command]
    ensures { command_trees result.now ≡ final_in (command_trees found.now) (item_tree item.now) }
{
    match item {
        Item::Final(_, commands) => commands,
        Item::Sort(_, _) => found,
        Item::Relation(_, _) => found,
        Item::Function(_, _, _) => found,
        Item::Variable(_, _) => found,
        Item::Axiom(_, _) => found,
        Item::Conjecture(_, _) => found,
        Item::Init(_, _) => found,
        Item::Action(_, _) => found,
        Item::Define(_, _, _) => found,
    }
}

// The commands of the last `final`.
fn final_commands(items: &[Item]) -> &[Command]
    ensures { command_trees result.now ≡ last_final [] (item_trees items.now) }
{
    let mut found: &[Command] = &[];
    let mut rest = items;
    while let [item, after @ ..] = rest {
        found = final_in(found, item);
        rest = after;
    }
    found
}

// The commands of an action.
fn action_in(item: &Item) -> Option<&[Command]>
    ensures { action_of (item_tree item.now) ≡ option_to_list (option_map (λ cs. command_trees cs.now) result) }
{
    match item {
        Item::Action(_, commands) => Some(commands),
        Item::Sort(_, _) => None,
        Item::Relation(_, _) => None,
        Item::Function(_, _, _) => None,
        Item::Variable(_, _) => None,
        Item::Axiom(_, _) => None,
        Item::Conjecture(_, _) => None,
        Item::Init(_, _) => None,
        Item::Final(_, _) => None,
        Item::Define(_, _, _) => None,
    }
}

// The commands of the action of this number, from 0.
fn action_commands(items: &[Item], number: u32) -> Option<&[Command]>
    ensures { option_map (λ cs. command_trees cs.now) result ≡ slice_get (actions_of (item_trees items.now)) number }
{
    let mut left = number;
    let mut rest = items;
    while let [item, after @ ..] = rest {
        if let Some(commands) = action_in(item) {
            if left == 0 {
                return Some(commands);
            }
            left -= 1;
        }
        rest = after;
    }
    None
}

// The commands of a stage's block; none of an action that is not there.
pub fn stage_commands(tree: &Tree, stage: Stage) -> Option<&[Command]>
    ensures { option_map (λ cs. command_trees cs.now) result ≡ stage_commands (file_tree tree.now).items stage }
{
    match stage {
        Stage::Init => Some(init_commands(&tree.items)),
        Stage::Action(number) => action_commands(&tree.items, number),
        Stage::Final => Some(final_commands(&tree.items)),
    }
}
