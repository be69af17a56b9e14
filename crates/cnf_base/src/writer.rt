// Writes the text of a formula, the one that the definition says, so that it is read again as the same.
ghost use Rattle.std.specs.Prelude.{◌≡◌, ◌++◌, ◌∷◌, OnOk, OnErr, IfOk};
ghost use Rattle.cnf_base.specs.Writing.{literal_text, literals_text, entry_text, entries_text, text_of, HasFront};

use crate::{Cnf, Entry, Lit};
use base::{Mem, push_number};
use std::alloc::Global;

#[tactic(auto, using(std::proofs::Common::append_assoc))]
fn push_literal(out: &mut Vec<u8>, lit: Lit) -> Mem<()>
    ensures ok { OnOk result (out.new.items ≡ out.old.items ++ literal_text lit) }
    ensures kept { OnErr result (HasFront out.old.items out.new.items (literal_text lit)) }
{
    if !lit.is_positive() {
        out.push(b'-')?;
    }
    push_number(out, lit.variable() as u64)?;
    Ok(())
}

/// The literals, each with a blank behind it, behind what is there. After want of memory there is what was there, and
/// behind it a front of their text.
#[tactic(auto, using(std::proofs::Common::append_assoc))]
pub fn push_literals(out: &mut Vec<u8>, lits: &[Lit]) -> Mem<()>
    ensures ok { OnOk result (out.new.items ≡ out.old.items ++ literals_text lits.now) }
    ensures kept { OnErr result (HasFront out.old.items out.new.items (literals_text lits.now)) }
{
    let mut rest = lits;
    while let [lit, after @ ..] = rest {
        push_literal(out, *lit)?;
        out.push(b' ')?;
        rest = after;
    }
    Ok(())
}

#[tactic(auto, using(std::proofs::Common::append_assoc))]
fn push_entry(out: &mut Vec<u8>, entry: &Entry) -> Mem<()>
    ensures { OnOk result (out.new.items ≡ out.old.items ++ entry_text entry.now) }
{
    match entry {
        Entry::Clause(clause) => {
            push_literals(out, clause.as_slice())?;
            out.extend_from_slice(b"0\n")?;
            Ok(())
        }
        Entry::True => {
            out.extend_from_slice(b"1 -1 0\n")?;
            Ok(())
        }
    }
}

#[tactic(auto, using(std::proofs::Common::append_assoc))]
fn push_entries(out: &mut Vec<u8>, entries: &[Entry]) -> Mem<()>
    ensures { OnOk result (out.new.items ≡ out.old.items ++ entries_text entries.now) }
{
    let mut rest = entries;
    while let [entry, after @ ..] = rest {
        push_entry(out, entry)?;
        rest = after;
    }
    Ok(())
}

/// The text of a formula in the format DIMACS CNF: the header, then a clause a line. It is read again
/// as the same formula where it has at most 2147483647 variables and as many clauses.
#[tactic(auto, using(std::proofs::Common::append_assoc))]
pub fn write_cnf(alloc: Global, cnf: &Cnf) -> Mem<Vec<u8>>
    ensures { IfOk result (λ text. text.items ≡ text_of cnf.now) }
{
    let mut out = Vec::new(alloc);
    out.extend_from_slice(b"p cnf ")?;
    push_number(&mut out, cnf.variables() as u64)?;
    out.push(b' ')?;
    push_number(&mut out, cnf.clauses().len() as u64)?;
    out.push(b'\n')?;
    push_entries(&mut out, cnf.clauses())?;
    Ok(out)
}
