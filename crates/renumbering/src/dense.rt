// The dense formula. Whatever its making finds amiss (names that do not rise, a variable without a name) is answered by
// none, so nothing has to be shown of the sort and the search.
ghost use Rattle.std.specs.Prelude.{◌≡◌, ◌<◌, ◌≤◌, length, map, IfOk, IfSome};
ghost use Rattle.cnf_base.specs.declared.cnf.Entry.TheVariants.{Clause};
ghost use Rattle.cnf_base.specs.Literals.{AreLiterals};
ghost use Rattle.cnf_base.specs.Clauses.{IsClause, IsEntry};
ghost use Rattle.cnf_base.specs.Formulas.{AreEntries};
ghost use Rattle.renumbering.specs.Named.{named, named_entry};
ghost use Rattle.renumbering.specs.Renumbered.{IsRenumbered};

use crate::names::{are_rising, dense_literal, variables_of};
use base::{Mem, Row};
use cnf_base::{Cnf, Entry, Lit, entry, entry_laws};
use std::alloc::Global;

/// A formula over the variables 1, 2, .., and the variable that each of them stands for.
#[derive(Drop)]
pub struct Renumbered {
    pub cnf: Cnf,
    pub names: Vec<u32>,
}

fn dense_literals(alloc: Global, names: &[u32], clause: &[Lit]) -> Mem<Option<Vec<Lit>>>
    ensures name { IfOk result (λ r. IfSome r (λ c. map (named names.now) c.items ≡ clause.now)) }
    ensures range { IfOk result (λ r. IfSome r (λ c. AreLiterals (length names.now) c.items)) }
{
    let mut dense = Vec::with_capacity(alloc, clause.len())?;
    for literal in clause {
        match dense_literal(names, *literal) {
            Some(own) => dense.push(own)?,
            None => return Ok(None),
        }
    }
    Ok(Some(dense))
}

fn dense_clause(alloc: Global, names: &[u32], clause: &[Lit]) -> Mem<Option<Entry>>
    requires { IsClause clause.now }
    ensures name { IfOk result (λ r. IfSome r (λ e. named_entry names.now e ≡ Clause clause.now)) }
    ensures range { IfOk result (λ r. IfSome r (λ e. IsEntry (length names.now) e)) }
{
    entry_laws();
    match dense_literals(alloc, names, clause)? {
        Some(dense) => {
            let dense = entry(alloc, dense.as_slice())?;
            Ok(Some(dense))
        }
        None => Ok(None),
    }
}

fn dense_entry(alloc: Global, names: &[u32], entry: &Entry) -> Mem<Option<Entry>>
    requires { 0 < length names.now }
    ensures name { IfOk result (λ r. IfSome r (λ e. named_entry names.now e ≡ entry.now)) }
    ensures range { IfOk result (λ r. IfSome r (λ e. IsEntry (length names.now) e)) }
{
    match entry {
        Entry::Clause(clause) => {
            let dense = dense_clause(alloc, names, clause.as_slice())?;
            Ok(dense)
        }
        Entry::True => Ok(Some(Entry::True)),
    }
}

fn dense_entries(alloc: Global, names: &[u32], entries: &[Entry]) -> Mem<Option<Vec<Entry>>>
    requires { 0 < length names.now }
    ensures name { IfOk result (λ r. IfSome r (λ es. map (named_entry names.now) es.items ≡ entries.now)) }
    ensures range { IfOk result (λ r. IfSome r (λ es. AreEntries (length names.now) es.items)) }
{
    let mut dense = Vec::with_capacity(alloc, entries.len())?;
    for entry in entries {
        match dense_entry(alloc, names, entry)? {
            Some(own) => dense.push(own)?,
            None => return Ok(None),
        }
    }
    Ok(Some(dense))
}

/// The dense formula of a formula, where one is found.
pub fn renumber(alloc: Global, cnf: &Cnf) -> Mem<Option<Renumbered>>
    ensures { IfOk result (λ r. IfSome r (λ d. IsRenumbered cnf.now d.cnf d.names.items)) }
{
    let names = variables_of(alloc, cnf.clauses())?;
    if names.is_empty()
        || names.len() > 2147483647
        || !are_rising(names.as_slice(), cnf.variables())
    {
        return Ok(None);
    }
    match dense_entries(alloc, names.as_slice(), cnf.clauses())? {
        Some(clauses) => Ok(Some(Renumbered {
            cnf: Cnf::new(names.len() as u32, Row::from_vec(clauses)),
            names,
        })),
        None => Ok(None),
    }
}
