// A checker of logs, line by line. It keeps the formula and the lines that it accepted, so that it is itself the proof
// of what it says.
use crate::table::Table;
use base::{Mem, Refused, Row};
use cnf_base::{Cnf, Entry, Lit};
use lrat_log::{Line, Outcome, RefusalCode, Sink, growth_laws, soundness};
use std::alloc::{AllocError, Global};
use std::marker::Model;

/// Why a line was refused, and the line's id.
#[derive(Clone, Copy, PartialEq, Eq, Debug)]
pub struct Refusal {
    pub code: RefusalCode,
    pub id: u32,
}

/// A checker of logs: a formula, and the lines that were accepted one after another.
#[derive(Drop)]
pub struct Checker {
    cnf: Cnf,
    lines: Vec<Line>,
    table: Table,
    is_refuted: bool,
}

impl Model for Checker {
    ghost use Rattle.lrat_check.specs.Checked.{Checked};

    ghost Value = { Checked };

    ghost use Rattle.lrat_check.specs.CheckerState.{value_of_checker, IsChecker};

    ghost view = { value_of_checker };

    ghost invariant = { IsChecker };
}

ghost use Rattle.std.specs.Prelude.{◌≡◌, ℕ, ◌+◌, ◌<◌, ◌≤◌, List, [], ◌∷◌, ◌++◌, length, All, IfOk, OnOk, OnErr};
ghost use Rattle.std.specs.Prelude.{IfErr, IsTrue};
ghost use Rattle.base.specs.Because.{Because};
ghost use Rattle.cnf_base.specs.Formulas.{IsUnsatisfiable};
ghost use Rattle.lrat_log.specs.declared.line.Line.TheVariants.{Add, Delete};
ghost use Rattle.lrat_log.specs.declared.outcome.Outcome.TheVariants.{Accepted};
ghost use Rattle.lrat_log.specs.Held.{held_of, with_entry};
ghost use Rattle.lrat_log.specs.Accepted.{outcome_of, outcome_of_addition, outcome_of_deletion, IsAccepted, adds_empty};
ghost use Rattle.lrat_check.specs.TableValue.{held_by_table};
ghost use Rattle.lrat_check.specs.Checked.{Checked, held_now, last_of, MayStep, Follows, IsRefusal};

impl Checker {
    /// A checker that has accepted no line yet. The formula is copied.
    pub fn new(alloc: Global, cnf: &Cnf) -> Mem<Checker>
        ensures { IfOk result (λ c. c ≡ record { formula = cnf.now; lines = [] }) }
    {
        let copy = cnf.copy(alloc)?;
        let checker = Checker::of(alloc, copy)?;
        Ok(checker)
    }

    /// As `new`, of a formula that is moved and not copied.
    pub fn of(alloc: Global, cnf: Cnf) -> Mem<Checker>
        ensures { IfOk result (λ c. c ≡ record { formula = cnf; lines = [] }) }
    {
        let table = table_of(alloc, &cnf)?;
        Ok(Checker {
            cnf,
            lines: Vec::new(alloc),
            table,
            is_refuted: false,
        })
    }

    /// Whether an addition without literals was accepted.
    pub fn is_refuted(&self) -> bool
        ensures exact { result ≡ adds_empty self.now.lines }
        ensures unsatisfiable { IsTrue result → IsUnsatisfiable self.now.formula }
    {
        soundness();
        self.is_refuted
    }

    /// Takes a copy of one line, if it is accepted. A step costs the line's copy and, for each hint,
    /// the literals of its clause and one look at the span of its id; where smaller ids are missing, the
    /// span is sought by halving, so such a hint costs the logarithm of the number of clauses that came.
    pub fn step(&mut self, line: &Line) -> Result<(), Refused<Refusal>>
        requires { MayStep self.old line.now }
        ensures accepted { OnOk result (outcome_of (held_now self.old) line.now ≡ Accepted) }
        ensures kept { OnOk result (self.new
            ≡ record { formula = self.old.formula; lines = self.old.lines ++ line.now ∷ [] }) }
        ensures follows { OnOk result (Follows self.old line.now) }
        ensures refused { IfErr result (Because (IsRefusal (outcome_of (held_now self.old) line.now) line.now)) }
        ensures unchanged { OnErr result (self.new ≡ self.old) }
    {
        match line.copy(*self.lines.allocator()) {
            Ok(copy) => self.step_owned(copy),
            Err(_) => Err(Refused::NoMemory),
        }
    }

    /// As `step`, of a line that is moved and not copied.
    pub fn step_owned(&mut self, line: Line) -> Result<(), Refused<Refusal>>
        requires { MayStep self.old line }
        ensures accepted { OnOk result (outcome_of (held_now self.old) line ≡ Accepted) }
        ensures kept { OnOk result (self.new
            ≡ record { formula = self.old.formula; lines = self.old.lines ++ line ∷ [] }) }
        ensures follows { OnOk result (Follows self.old line) }
        ensures refused { IfErr result (Because (IsRefusal (outcome_of (held_now self.old) line) line)) }
        ensures unchanged { OnErr result (self.new ≡ self.old) }
    {
        soundness();
        match line {
            Line::Add { id, lits, hints } => self.step_addition(id, lits, hints),
            Line::Delete { id, ids } => self.step_deletion(id, ids),
        }
    }

    /// The formula that the lines speak of.
    pub fn formula(&self) -> &Cnf
        ensures { result.now ≡ self.now.formula }
    {
        &self.cnf
    }

    /// The lines that were accepted.
    pub fn lines(&self) -> &[Line]
        ensures value { result.now ≡ self.now.lines }
        ensures accepted { IsAccepted self.now.formula self.now.lines }
    {
        self.lines.as_slice()
    }

    /// Gives the formula and the accepted lines back. Nothing is copied.
    pub fn into_parts(self) -> (Cnf, Row<Line>)
        ensures formula { result.0 ≡ self.formula }
        ensures lines { result.1 ≡ self.lines }
        ensures accepted { IsAccepted self.formula self.lines }
    {
        let Checker {
            cnf,
            lines,
            table: _,
            is_refuted: _,
        } = self;
        (cnf, Row::from_vec(lines))
    }

    fn step_addition(
        &mut self,
        id: u32,
        lits: Row<Lit>,
        hints: Row<u32>,
    ) -> Result<(), Refused<Refusal>>
        requires { MayStep self.old (Add id lits hints) }
        ensures accepted { OnOk result (outcome_of_addition (held_now self.old) lits hints ≡ Accepted) }
        ensures kept { OnOk result (self.new
            ≡ record { formula = self.old.formula; lines = self.old.lines ++ Add id lits hints ∷ [] }) }
        ensures refused { IfErr result (Because
            (IsRefusal (outcome_of_addition (held_now self.old) lits hints) (Add id lits hints))) }
        ensures unchanged { OnErr result (self.new ≡ self.old) }
    {
        growth_laws();
        let clause = lits.as_slice();
        let checked = self.table.check_addition(clause, hints.as_slice())?;
        match checked.0 {
            Outcome::Refused(code) => return Err(Refused::For(Refusal { code, id })),
            Outcome::Accepted => {}
        }
        self.lines.reserve(1)?;
        self.table.add(id, clause, checked.1)?;
        self.is_refuted = self.is_refuted | clause.is_empty();
        match self.lines.push(Line::Add { id, lits, hints }) {
            Ok(()) => {}
            Err(_) => unreachable!(),
        }
        Ok(())
    }

    fn step_deletion(&mut self, id: u32, ids: Row<u32>) -> Result<(), Refused<Refusal>>
        ensures accepted { OnOk result (outcome_of_deletion (held_now self.old) ids ≡ Accepted) }
        ensures kept { OnOk result (self.new
            ≡ record { formula = self.old.formula; lines = self.old.lines ++ Delete id ids ∷ [] }) }
        ensures refused { IfErr result (Because
            (IsRefusal (outcome_of_deletion (held_now self.old) ids) (Delete id ids))) }
        ensures unchanged { OnErr result (self.new ≡ self.old) }
    {
        growth_laws();
        match self.table.check_deletion(ids.as_slice()) {
            Outcome::Refused(code) => return Err(Refused::For(Refusal { code, id })),
            Outcome::Accepted => {}
        }
        self.lines.reserve(1)?;
        self.table.delete(ids.as_slice());
        match self.lines.push(Line::Delete { id, ids }) {
            Ok(()) => {}
            Err(_) => unreachable!(),
        }
        Ok(())
    }
}

impl Sink for Checker {
    ghost formula = { λ c. c.formula };

    ghost lines = { λ c. c.lines };

    fn formula(&self) -> &Cnf {
        &self.cnf
    }

    fn take(&mut self, line: Line) -> Mem<()> {
        match self.step_owned(line) {
            Ok(()) => Ok(()),
            Err(Refused::NoMemory) => Err(AllocError),
            Err(Refused::For(_)) => unreachable!(),
        }
    }
}

// A table that holds the clauses of a formula, under the ids 1, 2, .. An id has four bytes, and a formula of 2^32
// clauses is taken for want of memory.
fn table_of(alloc: Global, cnf: &Cnf) -> Mem<Table>
    ensures held { IfOk result (λ t. (k : ℕ) → held_by_table t k ≡ held_of cnf.now k) }
    ensures last { IfOk result (λ t. All (λ s. s.id ≤ length cnf.now.clauses) t.spans) }
{
    let count = cnf.clauses().len();
    if count > u32::MAX as usize {
        return Err(AllocError);
    }
    let mut table = Table::new(alloc, count)?;
    for (i, entry) in cnf.clauses().iter().enumerate() {
        let id = i as u32 + 1;
        add_entry(&mut table, id, entry)?;
    }
    Ok(table)
}

fn add_entry(table: &mut Table, id: u32, entry: &Entry) -> Mem<()>
    requires { All (λ s. s.id < id) table.old.spans }
    ensures held { OnOk result ((k : ℕ) → held_by_table table.new k
        ≡ with_entry (held_by_table table.old) id entry.now k) }
    ensures spans { OnOk result (All (λ s. s.id ≤ id) table.new.spans) }
{
    match entry {
        Entry::Clause(clause) => table.add(id, clause.as_slice(), false),
        Entry::True => table.add(id, &[], true),
    }
}
