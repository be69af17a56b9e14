// Up to which variable the tables of a formula go.
ghost use Rattle.std.specs.Prelude.{List, ◌≡◌, ◌⊎◌, ℕ, true, ◌^◌, ◌<◌, ◌≤◌, length};
ghost use Rattle.cnf_base.specs.declared.cnf.Entry.TheVariants.{Clause};
ghost use Rattle.cnf_base.specs.Literals.{variable_of, member};
ghost use Rattle.cdcl_tables.specs.Extent.{AreUpTo, StandsIn, StandsAmong};

use cnf_base::{Entry, Lit};

/// The greatest variable of a clause, or `least` where that is greater.
fn greatest_of(clause: &[Lit], least: u32) -> u32
    requires { least < 2 ^ 31 }
    ensures least { least ≤ result }
    ensures range { result < 2 ^ 31 }
    ensures up_to { (l : ℕ) → member l clause.now ≡ true → variable_of l ≤ result }
    ensures stands { (result ≡ least) ⊎ StandsIn result clause.now }
{
    let mut greatest = least;
    let mut rest = clause;
    while let [literal, after @ ..] = rest {
        greatest = greatest.max(literal.variable());
        rest = after;
    }
    greatest
}

fn greatest_in(entry: &Entry, least: u32) -> u32
    requires { least < 2 ^ 31 }
    ensures least { least ≤ result }
    ensures range { result < 2 ^ 31 }
    ensures up_to { (c : List ℕ) → entry.now ≡ Clause c → (l : ℕ) → member l c ≡ true → variable_of l ≤ result }
    ensures stands { (result ≡ least) ⊎ ((c : List ℕ) × (entry.now ≡ Clause c) × StandsIn result c) }
{
    match entry {
        Entry::Clause(clause) => greatest_of(clause.as_slice(), least),
        Entry::True => least,
    }
}

/// The greatest variable that stands in a clause, or 1.
pub fn greatest_variable(entries: &[Entry]) -> u32
    ensures some { 0 < result }
    ensures range { result < 2 ^ 31 }
    ensures up_to { AreUpTo result entries.now (length entries.now) }
    ensures stands { (result ≡ 1) ⊎ StandsAmong result entries.now (length entries.now) }
{
    let mut greatest = 1;
    for entry in entries {
        greatest = greatest_in(entry, greatest);
    }
    greatest
}
