// How many nodes the formula of a node has, how deep it is, and whether an existential stands in it: what is known of
// the parts is kept, so nothing is walked.
ghost use Rattle.std.specs.Prelude.{◌≡◌, false};
ghost use Rattle.fol_formula.specs.Counts.{form_nodes, forms_nodes, term_nodes, terms_nodes, form_depth, forms_depth};
ghost use Rattle.fol_formula.specs.Counts.{term_depth, terms_depth, saturated};
ghost use Rattle.fol_pool.specs.Trees.{HasForm, HasForms, HasTerm, HasTerms, form_at, forms_at, term_at, terms_at};
ghost use Rattle.fol_pool.specs.Shapes.{tree_of, IsOver};
ghost use Rattle.fol_pool.specs.Facts.{tree_nodes, tree_depth, tree_existential, has_existential, have_existential};

use crate::facts::TreeFacts;
use crate::pool::Pool;
use crate::shape::{Node, Shape};

impl Pool {
    /// How many nodes the formula of a node has when it is written out, or the greatest number where it has more.
    pub fn nodes(&self, node: Node) -> u64
        requires { HasForm self.now node.0 }
        ensures { result ≡ saturated (form_nodes (form_at self.now node.0)) }
    {
        let facts = self.form_facts(node);
        facts.nodes
    }

    /// How many nodes lie on its longest way down, or the greatest number where there are more.
    pub fn depth(&self, node: Node) -> u64
        requires { HasForm self.now node.0 }
        ensures { result ≡ saturated (form_depth (form_at self.now node.0)) }
    {
        let facts = self.form_facts(node);
        facts.depth
    }

    /// Whether an existential stands in it as it is written, those of its terms not counted.
    pub fn has_existential(&self, node: Node) -> bool
        requires { HasForm self.now node.0 }
        ensures { result ≡ has_existential (form_at self.now node.0) }
    {
        let facts = self.form_facts(node);
        facts.existential
    }

    // What is known of the tree that a shape stands for.
    pub(crate) fn shape_facts(&self, shape: Shape) -> TreeFacts
        requires { IsOver self.now shape }
        ensures nodes { result.nodes ≡ saturated (tree_nodes (tree_of self.now shape)) }
        ensures depth { result.depth ≡ saturated (tree_depth (tree_of self.now shape)) }
        ensures existential { result.existential ≡ tree_existential (tree_of self.now shape) }
    {
        match shape {
            Shape::True => TreeFacts::ONE,
            Shape::False => TreeFacts::ONE,
            Shape::Rel(_, args) => self.terms_facts(args).over(),
            Shape::Eq(a, b) => self.term_facts(a).beside(self.term_facts(b)).over(),
            Shape::Not(p) => self.form_facts(p).over(),
            Shape::And(ps) => self.forms_facts(ps).over(),
            Shape::Or(ps) => self.forms_facts(ps).over(),
            Shape::Implies(p, q) => self.form_facts(p).beside(self.form_facts(q)).over(),
            Shape::Iff(p, q) => self.form_facts(p).beside(self.form_facts(q)).over(),
            Shape::Forall(_, p) => self.form_facts(p).over(),
            Shape::Exists(_, p) => TreeFacts {
                existential: true,
                ..self.form_facts(p).over()
            },
            Shape::NoForms => TreeFacts::NONE,
            Shape::FormThen(p, ps) => self.form_facts(p).beside(self.forms_facts(ps)),
            Shape::Bound(_) => TreeFacts::ONE,
            Shape::App(_, args) => self.terms_facts(args).over(),
            Shape::Ite(p, a, b) => {
                let branches = self.term_facts(a).beside(self.term_facts(b));
                TreeFacts {
                    existential: false,
                    ..self.form_facts(p).beside(branches).over()
                }
            }
            Shape::NoTerms => TreeFacts::NONE,
            Shape::TermThen(t, ts) => self.term_facts(t).beside(self.terms_facts(ts)),
        }
    }

    fn form_facts(&self, node: Node) -> TreeFacts
        requires { HasForm self.now node.0 }
        ensures nodes { result.nodes ≡ saturated (form_nodes (form_at self.now node.0)) }
        ensures depth { result.depth ≡ saturated (form_depth (form_at self.now node.0)) }
        ensures existential { result.existential ≡ has_existential (form_at self.now node.0) }
    {
        self.facts(node)
    }

    fn forms_facts(&self, row: Node) -> TreeFacts
        requires { HasForms self.now row.0 }
        ensures nodes { result.nodes ≡ saturated (forms_nodes (forms_at self.now row.0)) }
        ensures depth { result.depth ≡ saturated (forms_depth (forms_at self.now row.0)) }
        ensures existential { result.existential ≡ have_existential (forms_at self.now row.0) }
    {
        self.facts(row)
    }

    fn term_facts(&self, node: Node) -> TreeFacts
        requires { HasTerm self.now node.0 }
        ensures nodes { result.nodes ≡ saturated (term_nodes (term_at self.now node.0)) }
        ensures depth { result.depth ≡ saturated (term_depth (term_at self.now node.0)) }
        ensures existential { result.existential ≡ false }
    {
        self.facts(node)
    }

    fn terms_facts(&self, row: Node) -> TreeFacts
        requires { HasTerms self.now row.0 }
        ensures nodes { result.nodes ≡ saturated (terms_nodes (terms_at self.now row.0)) }
        ensures depth { result.depth ≡ saturated (terms_depth (terms_at self.now row.0)) }
        ensures existential { result.existential ≡ false }
    {
        self.facts(row)
    }
}
