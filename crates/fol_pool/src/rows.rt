// Rows of formulas that stand in the pool already.
ghost use Rattle.std.specs.Prelude.{IfOk};
ghost use Rattle.fol_formula.specs.Syntax.{forms_of};
ghost use Rattle.fol_pool.specs.Trees.{IsAt, Grows, some_forms};
ghost use Rattle.fol_pool.specs.Rows.{AreForms, formulas};

use crate::pool::Pool;
use crate::shape::{Node, Shape};
use base::Mem;

impl Pool {
    /// The node of the row of these formulas. Err: out of memory; some ends of the row may have been added, and each
    /// node that was there is as before.
    pub fn row_of(&mut self, parts: &[Node]) -> Mem<Node>
        requires { AreForms self.old parts.now (formulas self.old parts.now) }
        ensures node { IfOk result
            (λ node. IsAt self.new node.0 (some_forms (forms_of (formulas self.old parts.now)))) }
        ensures grows { Grows self.old self.new }
    {
        let mut row = self.add(Shape::NoForms)?;
        for i in (0..parts.len()).rev() {
            row = self.add(Shape::FormThen(parts[i], row))?;
        }
        Ok(row)
    }
}
