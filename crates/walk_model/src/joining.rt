// The joined paths of a walk, as a block: its primitives in sequence, so that the block has this one path.
ghost use Rattle.std.specs.Prelude.{◌≡◌, ◌∷◌, ◌++◌, [], map, Some, IfOk, OnOk};
ghost use Rattle.std.specs.List.{AllByRecursion};
ghost use Rattle.rml_command.specs.Trees.{abort, prim, seq, no_commands, commands_of};
ghost use Rattle.base.specs.Lists.{numbered};
ghost use Rattle.rml_command.specs.Goals.{stage_paths};
ghost use Rattle.rml_command.specs.View.{command as command_view, primitive as primitive_view};
ghost use Rattle.walks.specs.Walks.{leg_path, joined};
ghost use Rattle.walks.specs.Laws.{IsLeg};

use base::Mem;
use rml_command::{Checked, Command, Path, Primitive};
use std::alloc::Global;
use walks::Leg;

fn step(primitive: Primitive) -> Command
    ensures { command_view result ≡ prim (primitive_view primitive) }
{
    Command::Prim(primitive)
}

fn sequence(commands: Vec<Command>) -> Command
    ensures { command_view result ≡ seq (commands_of (map command_view commands.items)) }
{
    Command::Seq(commands)
}

/// The block that does nothing.
pub fn skip(alloc: Global) -> Command
    ensures { command_view result ≡ seq no_commands }
{
    sequence(Vec::new(alloc))
}

/// The path that a leg takes.
pub fn path_of<'a>(checked: &'a Checked, leg: &Leg) -> Path<'a>
    requires { IsLeg checked.now leg.now }
    ensures path { result ≡ leg_path checked.now leg.now }
    ensures there { numbered (stage_paths checked.now leg.now.stage) leg.now.path ≡ Some result }
{
    let paths = checked.stage_paths(leg.stage);
    paths.path(leg.path as usize - 1)
}

// Adds the primitives of a path.
fn add_path(alloc: Global, path: &Path, into: &mut Vec<Command>) -> Mem<()>
    ensures { OnOk result (map command_view into.new.items ≡ map command_view into.old.items ++ map prim path.now) }
{
    for primitive in path.primitives() {
        into.push(step(primitive.copy(alloc)?))?;
    }
    Ok(())
}

// The primitives of a walk.
fn primitives(alloc: Global, checked: &Checked, legs: &[Leg]) -> Mem<Vec<Command>>
    requires { AllByRecursion (IsLeg checked.now) legs.now }
    ensures { IfOk result (λ cs. map command_view cs.items ≡ map prim (joined checked.now legs.now)) }
{
    let mut commands = Vec::new(alloc);
    let mut rest = legs;
    while let [leg, after @ ..] = rest {
        add_path(alloc, &path_of(checked, leg), &mut commands)?;
        rest = after;
    }
    Ok(commands)
}

/// The paths of a walk, joined.
pub fn join(alloc: Global, checked: &Checked, legs: &[Leg]) -> Mem<Command>
    requires { AllByRecursion (IsLeg checked.now) legs.now }
    ensures { IfOk result (λ c. command_view c ≡ seq (commands_of (map prim (joined checked.now legs.now)))) }
{
    let commands = primitives(alloc, checked, legs)?;
    Ok(sequence(commands))
}

/// The paths of a walk, joined, and an abort.
pub fn join_and_abort(alloc: Global, checked: &Checked, legs: &[Leg]) -> Mem<Command>
    requires { AllByRecursion (IsLeg checked.now) legs.now }
    ensures { IfOk result
        (λ c. command_view c ≡ seq (commands_of (map prim (joined checked.now legs.now ++ abort ∷ [])))) }
{
    let mut commands = primitives(alloc, checked, legs)?;
    commands.push(step(Primitive::Abort))?;
    Ok(sequence(commands))
}
