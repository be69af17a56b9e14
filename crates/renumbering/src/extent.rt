// Whether the numbers of a formula are sparse: one pass, which keeps two numbers.
use cnf_base::{Cnf, Entry, Lit};

// Up to here the tables of a solver are small whatever the literals.
const FEW: usize = 1 << 12;

/// How many literals stand in clauses, and the greatest variable among them.
#[derive(Clone, Copy)]
struct Extent {
    literals: usize,
    greatest: usize,
}

impl Extent {
    fn with_clause(self, clause: &[Lit]) -> Extent {
        let mut greatest = self.greatest;
        for literal in clause {
            greatest = greatest.max(literal.variable() as usize);
        }
        Extent {
            literals: self.literals.saturating_add(clause.len()),
            greatest,
        }
    }
}

/// Whether the greatest variable is well above the number of the literals.
pub fn is_sparse(cnf: &Cnf) -> bool {
    let mut extent = Extent {
        literals: 0,
        greatest: 0,
    };
    for entry in cnf.clauses() {
        if let Entry::Clause(clause) = entry {
            extent = extent.with_clause(clause.as_slice());
        }
    }
    extent.greatest > extent.literals.saturating_mul(2).saturating_add(FEW)
}
