// The limits that a command line asks for.
ghost use Rattle.std.specs.Prelude.{◌≡◌};
ghost use Rattle.command_line.specs.Asking.{IsInRange};
ghost use Rattle.limits.specs.Ceilings.{ceilings};
ghost use Rattle.command_parts.specs.Limits.{ceilings_of};

use command_line::Asked;
use limits::Limits;

/// The limits of a decision, as they were asked for.
pub fn limits_of(asked: Asked) -> Limits
    requires { IsInRange asked }
    ensures { ceilings result ≡ ceilings_of asked }
{
    Limits {
        terms: asked.terms,
        ground_size: asked.ground_size,
        conflicts: asked.conflicts,
    }
}
