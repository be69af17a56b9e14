// The names: the variables that stand in a formula, rising. The dense variable of a name is its place from 1 on.
ghost use Rattle.std.specs.Prelude.{◌≡◌, ◌^◌, ◌<◌, ◌≤◌, length, IfSome};
ghost use Rattle.std.specs.Bool.{OnTrue};
ghost use Rattle.cnf_base.specs.Literals.{IsLiteral};
ghost use Rattle.renumbering.specs.Named.{named};
ghost use Rattle.cnf_base.specs.Rising.{AreRising};
ghost use Rattle.cnf_base.specs.Numerals.{max_number};

use base::Mem;
use cnf_base::{Entry, Lit};
use std::alloc::Global;

const MOST: usize = 2147483647;

fn push_variables(variables: &mut Vec<u32>, clause: &[Lit]) -> Mem<()> {
    for literal in clause {
        variables.push(literal.variable())?;
    }
    Ok(())
}

/// The variables that stand in clauses. (That they rise is looked at by `are_rising`.)
pub fn variables_of(alloc: Global, entries: &[Entry]) -> Mem<Vec<u32>> {
    let mut variables = Vec::new(alloc);
    for entry in entries {
        if let Entry::Clause(clause) = entry {
            push_variables(&mut variables, clause.as_slice())?;
        }
    }
    variables.sort_unstable();
    variables.dedup();
    Ok(variables)
}

/// Whether names rise from above 0 to at most `most`, so that none stands twice.
pub fn are_rising(names: &[u32], most: u32) -> bool
    ensures { OnTrue result (AreRising most 0 names.now) }
{
    let mut last = 0;
    let mut rest = names;
    while let [name, after @ ..] = rest {
        if *name <= last || *name > most {
            return false;
        }
        last = *name;
        rest = after;
    }
    true
}

/// The literal that has a literal's name, if there is one.
pub fn dense_literal(names: &[u32], literal: Lit) -> Option<Lit>
    ensures name { IfSome result (λ d. named names.now d ≡ literal) }
    ensures range { IfSome result (λ d. IsLiteral (length names.now) d) }
{
    let place = match names.binary_search(&literal.variable()) {
        Ok(place) => place,
        Err(_) => return None,
    };
    if place >= names.len() || place >= MOST || names[place] != literal.variable() {
        return None;
    }
    Some(Lit::new(place as u32 + 1, literal.is_positive()))
}

/// The literal under its name.
pub fn name_of(names: &[u32], literal: Lit) -> Lit
    requires literal { IsLiteral (length names.now) literal }
    requires rising { AreRising max_number 0 names.now }
    ensures { result ≡ named names.now literal }
{
    Lit::new(
        names[literal.variable() as usize - 1],
        literal.is_positive(),
    )
}
