// What is answered of a sentence.
ghost use Rattle.std.specs.Prelude.{◌≡◌, true, length};
ghost use Rattle.lrat_log.specs.Accepted.{IsAccepted, adds_empty};
ghost use Rattle.lrat_log.specs.Logs.{IsLogOver};
ghost use Rattle.cnf_base.specs.Formulas.{IsUnsatisfiable};

use base::Row;
use cnf_base::Cnf;
use fol_sig::Structure;
use lrat_check::Checker;
use lrat_log::Line;
use std::marker::Model;

/// A refutation: clauses, and a log that the checker accepted line by line and that refutes them.
#[derive(Drop)]
pub struct Proof {
    checker: Checker,
}

impl Model for Proof {
    ghost use Rattle.std.specs.Prelude.{◌≡◌, true, length};
    ghost use Rattle.lrat_log.specs.Accepted.{adds_empty};
    ghost use Rattle.lrat_log.specs.Logs.{IsLogOver};
    ghost use Rattle.lrat_check.specs.Checked.{Checked};

    ghost Value = { Checked };

    ghost view = { λ p. p.checker };

    ghost invariant = { λ p. (adds_empty p.checker.lines ≡ true)
        × IsLogOver p.checker.formula.variables (length p.checker.formula.clauses) p.checker.lines };
}

impl Proof {
    /// What a checker accepted that found the clauses refuted.
    pub fn new(checker: Checker) -> Proof
        requires refutes { adds_empty checker.lines ≡ true }
        requires range { IsLogOver checker.formula.variables (length checker.formula.clauses) checker.lines }
        ensures { result ≡ checker }
    {
        Proof { checker }
    }

    /// The clauses.
    pub fn formula(&self) -> &Cnf
        ensures value { result.now ≡ self.now.formula }
        ensures unsatisfiable { IsUnsatisfiable self.now.formula }
    {
        let _refuted = self.checker.is_refuted();
        self.checker.formula()
    }

    /// The log.
    pub fn lines(&self) -> &[Line]
        ensures value { result.now ≡ self.now.lines }
        ensures accepted { IsAccepted self.now.formula self.now.lines }
    {
        self.checker.lines()
    }

    /// The clauses, and the log. Nothing is copied.
    pub fn into_parts(self) -> (Cnf, Row<Line>)
        ensures formula { result.0 ≡ self.formula }
        ensures lines { result.1 ≡ self.lines }
        ensures accepted { IsAccepted self.formula self.lines }
        ensures refutes { adds_empty self.lines ≡ true }
        ensures range { IsLogOver self.formula.variables (length self.formula.clauses) self.lines }
    {
        let Proof { checker } = self;
        checker.into_parts()
    }
}

/// Which limit is passed, with what was counted; of conflicts, the budget.
#[derive(Clone, Copy, Debug, PartialEq, Eq)]
pub enum Passed {
    /// The ground terms.
    Terms(u64),
    /// The size of the ground formulas.
    GroundSize(u64),
    Conflicts(u64),
}

/// What a sentence would cost.
#[derive(Clone, Copy, Debug, PartialEq, Eq)]
pub enum Measured {
    /// It passes no limit by its size, and its ground formulas are of this size.
    Within(u64),
    /// A limit is passed by the sentence's size.
    Over(Passed),
}

/// The answer to a sentence.
#[derive(Drop)]
pub enum Decided {
    /// It has no model.
    Refuted(Proof),
    /// This structure satisfies it. It has the Skolem constants too, behind the functions of the signature.
    Satisfied(Structure),
    /// A limit is passed.
    Over(Passed),
}

/// The clauses of a sentence.
#[derive(Drop)]
pub enum Clauses {
    Written(Cnf),
    /// A limit is passed by the sentence's size.
    Over(Passed),
}
