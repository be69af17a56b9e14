// Where the lines of a log go as they are made. A checker that takes them checks each at once, so no log
// is held beside it; and since a sink holds the formula, that is held once too.
ghost use Rattle.std.specs.Prelude.{◌≡◌, List, [], ◌∷◌, ◌++◌, length, OnOk, OnErr};
ghost use Rattle.cnf_base.specs.Formulas.{Formula};
ghost use Rattle.lrat_log.specs.declared.line.Line.{Line};
ghost use Rattle.lrat_log.specs.declared.outcome.Outcome.TheVariants.{Accepted};
ghost use Rattle.lrat_log.specs.Held.{held_of, after_lines};
ghost use Rattle.lrat_log.specs.Accepted.{outcome_of, last_id};
ghost use Rattle.lrat_log.specs.Logs.{IsLineOver};

use crate::Line;
use base::Mem;
use cnf_base::Cnf;

/// Takes the lines of a log, one behind the other.
pub trait Sink {
    /// The formula that the lines speak of.
    ghost formula: { Self → Formula };

    /// The lines that were taken.
    ghost lines: { Self → List Line };

    fn formula(&self) -> &Cnf
        ensures { result.now ≡ formula self.now };

    /// Takes one more line. It is in range, and accepted behind the lines before it, so want of memory is
    /// all that can keep it out; the lines are then as they were.
    fn take(&mut self, line: Line) -> Mem<()>
        requires range { let f = formula self.old in
            IsLineOver f.variables (last_id (length f.clauses) (lines self.old)) line }
        requires accepted { outcome_of (after_lines (held_of (formula self.old)) (lines self.old)) line ≡ Accepted }
        ensures formula { formula self.new ≡ formula self.old }
        ensures taken { OnOk result (lines self.new ≡ lines self.old ++ line ∷ []) }
        ensures kept { OnErr result (lines self.new ≡ lines self.old) };
}
