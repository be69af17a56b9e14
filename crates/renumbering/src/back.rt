// From the dense formula back: truth values, and lines of logs.
ghost use Rattle.std.specs.Prelude.{◌≡◌, ℕ, ◌+◌, ◌<◌, ◌≤◌, [], length, get_or, map, IfOk, OnOk};
ghost use Rattle.cnf_base.specs.Literals.{AreLiterals};
ghost use Rattle.cnf_base.specs.Formulas.{IsModel, value_of};
ghost use Rattle.cnf_base.specs.Rising.{AreRising};
ghost use Rattle.lrat_log.specs.Accepted.{IsAccepted};
ghost use Rattle.lrat_log.specs.Logs.{IsLogOver, IsLineOver};
ghost use Rattle.renumbering.specs.Named.{named, named_line};
ghost use Rattle.renumbering.specs.Renumbered.{IsRenumbered};
ghost use Rattle.cnf_base.specs.Numerals.{max_number};

use crate::dense::Renumbered;
use crate::names::name_of;
use base::{Mem, Row};
use cnf_base::{Cnf, Lit, Values};
use lrat_log::{Line, Sink};
use std::alloc::Global;

/// Each value under its name, and false for what has none.
fn spread(alloc: Global, names: &[u32], values: &Values, variables: u32) -> Mem<Values>
    requires rising { AreRising variables 0 names.now }
    ensures len { IfOk result (λ v. length v ≡ variables) }
    ensures value { IfOk result (λ v. (i : ℕ) → i < length names.now
        → value_of v (get_or names.now i 0) ≡ value_of values.now (i + 1)) }
{
    let mut spread = Values::all_false(alloc, variables);
    for i in 0..names.len() {
        spread.set(names[i], values.value(i as u32 + 1))?;
    }
    Ok(spread)
}

/// The truth values of a formula, from those of its dense one.
pub fn values_back(alloc: Global, cnf: &Cnf, dense: &Renumbered, values: &Values) -> Mem<Values>
    requires dense { IsRenumbered cnf.now dense.now.cnf dense.now.names.items }
    requires model { IsModel dense.now.cnf values.now }
    ensures { IfOk result (IsModel cnf.now) }
{
    let all = spread(alloc, dense.names.as_slice(), values, cnf.variables())?;
    Ok(all)
}

fn clause_back(alloc: Global, names: &[u32], clause: &[Lit]) -> Mem<Vec<Lit>>
    requires literals { AreLiterals (length names.now) clause.now }
    requires rising { AreRising max_number 0 names.now }
    ensures { IfOk result (λ c. c.items ≡ map (named names.now) clause.now) }
{
    let mut back = Vec::with_capacity(alloc, clause.len())?;
    let mut rest = clause;
    while let [literal, after @ ..] = rest {
        back.push(name_of(names, *literal))?;
        rest = after;
    }
    Ok(back)
}

fn line_back(alloc: Global, names: &[u32], line: &Line) -> Mem<Line>
    requires line { (last : ℕ) × IsLineOver (length names.now) last line.now }
    requires rising { AreRising max_number 0 names.now }
    ensures { IfOk result (λ l. l ≡ named_line names.now line.now) }
{
    match line {
        Line::Add { id, lits, hints } => Ok(Line::Add {
            id: *id,
            lits: Row::from_vec(clause_back(alloc, names, lits.as_slice())?),
            hints: Row::from_vec(Vec::from_slice(alloc, hints.as_slice())?),
        }),
        Line::Delete { id, ids } => Ok(Line::Delete {
            id: *id,
            ids: Row::from_vec(Vec::from_slice(alloc, ids.as_slice())?),
        }),
    }
}

/// Hands the lines of a log of the dense formula over, under the names. After want of memory too what was handed over
/// is in range and accepted.
pub fn hand_over<S: Sink>(alloc: Global, names: &[u32], lines: &[Line], sink: &mut S) -> Mem<()>
    requires begins { S.lines sink.old ≡ [] }
    requires rising { AreRising max_number 0 names.now }
    requires dense { (last : ℕ) × IsLogOver (length names.now) last lines.now }
    requires range { IsLogOver (S.formula sink.old).variables (length (S.formula sink.old).clauses)
        (map (named_line names.now) lines.now) }
    requires accepted { IsAccepted (S.formula sink.old) (map (named_line names.now) lines.now) }
    ensures formula { S.formula sink.new ≡ S.formula sink.old }
    ensures all { OnOk result (S.lines sink.new ≡ map (named_line names.now) lines.now) }
    ensures range { IsLogOver (S.formula sink.old).variables (length (S.formula sink.old).clauses) (S.lines sink.new) }
    ensures accepted { IsAccepted (S.formula sink.old) (S.lines sink.new) }
{
    for line in lines {
        sink.take(line_back(alloc, names, line)?)?;
    }
    Ok(())
}
