// A formula with its size.
ghost use Rattle.std.specs.Prelude.{◌≡◌, false, IfOk, IfErr, IsTrue};
ghost use Rattle.base.specs.Because.{Because};
ghost use Rattle.fol_formula.specs.View.{form};
ghost use Rattle.fol_formula.specs.Counts.{form_nodes, form_depth, saturated};
ghost use Rattle.fol_subst.specs.Limits.{is_too_large};

use crate::FormulaLimit;
use crate::extent::{MOST_DEPTH, MOST_NODES};
use base::Refused;
use fol_formula::Formula;

/// A formula of at most 1,000,000 nodes that is at most 1,000 deep, with its size. Who has one need not
/// count the formula again.
#[derive(Drop)]
pub struct Counted {
    pub formula: Formula,
    pub nodes: u64,
    pub depth: u64,
    ghost counts_nodes: { nodes ≡ form_nodes (form formula) },
    ghost counts_depth: { depth ≡ form_depth (form formula) },
    ghost within_limit: { is_too_large (form formula) ≡ false },
}

impl Counted {
    /// Counts a formula. It is refused where it is beyond the limit.
    pub fn of(formula: Formula) -> Result<Counted, Refused<FormulaLimit>>
        ensures formula { IfOk result (λ c. form c.formula ≡ form formula) }
        ensures limit { IfErr result (Because (λ _. IsTrue (is_too_large (form formula)))) }
    {
        let nodes = formula.nodes();
        let depth = formula.depth();
        let counted = Counted::new(formula, nodes, depth)?;
        Ok(counted)
    }

    /// A formula that was counted already, by `nodes` and `depth` or in another way that gives what they
    /// give. It is refused where it is beyond the limit.
    pub fn new(formula: Formula, nodes: u64, depth: u64) -> Result<Counted, Refused<FormulaLimit>>
        requires nodes { nodes ≡ saturated (form_nodes (form formula)) }
        requires depth { depth ≡ saturated (form_depth (form formula)) }
        ensures formula { IfOk result (λ c. form c.formula ≡ form formula) }
        ensures limit { IfErr result (Because (λ _. IsTrue (is_too_large (form formula)))) }
    {
        if nodes > MOST_NODES || depth > MOST_DEPTH {
            return Err(Refused::For(FormulaLimit));
        }
        Ok(Counted {
            formula,
            nodes,
            depth,
        })
    }
}
