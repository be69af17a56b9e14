// How many nodes a formula has, and how deep it is.
ghost use Rattle.std.specs.Prelude.{◌≡◌, ◌<◌, ◌^◌};
ghost use Rattle.fol_formula.specs.View.{form, term, forms, terms as terms_view};
ghost use Rattle.fol_formula.specs.Counts.{form_nodes, term_nodes, forms_nodes, terms_nodes, form_depth, term_depth};
ghost use Rattle.fol_formula.specs.Counts.{forms_depth, terms_depth, saturated};
ghost use Rattle.fol_formula.specs.Indices.{IndicesFit, IndicesFitAll, IndicesFitTerm, IndicesFitTerms};

use crate::{Formula, Term};

impl Term {
    /// How many term and formula constructors it has, or the greatest number where it has more. Since it
    /// meets each index, it tells too that each is a number of four bytes.
    #[cycle(nodes)]
    pub fn nodes(&self) -> u64
        ensures count { result ≡ saturated (term_nodes (term self.now)) }
        ensures indices { IndicesFitTerm (term self.now) }
    {
        match self {
            Term::Bound(i) => node_of_index(*i),
            Term::App(_, args) => nodes_of_terms(args).saturating_add(1),
            Term::Ite(p, a, b) => p
                .nodes()
                .saturating_add(a.nodes())
                .saturating_add(b.nodes())
                .saturating_add(1),
        }
    }

    /// How many constructors lie on its longest way down, or the greatest number where there are more.
    #[cycle(depth)]
    pub fn depth(&self) -> u64
        ensures { result ≡ saturated (term_depth (term self.now)) }
    {
        match self {
            Term::Bound(_) => 1,
            Term::App(_, args) => depth_of_terms(args).saturating_add(1),
            Term::Ite(p, a, b) => p.depth().max(a.depth().max(b.depth())).saturating_add(1),
        }
    }
}

impl Formula {
    /// How many formula and term constructors it has, or the greatest number where it has more. Since it
    /// meets each index, it tells too that each is a number of four bytes.
    #[cycle(nodes)]
    pub fn nodes(&self) -> u64
        ensures count { result ≡ saturated (form_nodes (form self.now)) }
        ensures indices { IndicesFit (form self.now) }
    {
        match self {
            Formula::True => 1,
            Formula::False => 1,
            Formula::Rel(_, args) => nodes_of_terms(args).saturating_add(1),
            Formula::Eq(a, b) => a.nodes().saturating_add(b.nodes()).saturating_add(1),
            Formula::Not(p) => p.nodes().saturating_add(1),
            Formula::And(ps) => nodes_of_formulas(ps).saturating_add(1),
            Formula::Or(ps) => nodes_of_formulas(ps).saturating_add(1),
            Formula::Implies(p, q) => p.nodes().saturating_add(q.nodes()).saturating_add(1),
            Formula::Iff(p, q) => p.nodes().saturating_add(q.nodes()).saturating_add(1),
            Formula::Forall(_, p) => p.nodes().saturating_add(1),
            Formula::Exists(_, p) => p.nodes().saturating_add(1),
        }
    }

    /// How many constructors lie on its longest way down, or the greatest number where there are more.
    #[cycle(depth)]
    pub fn depth(&self) -> u64
        ensures { result ≡ saturated (form_depth (form self.now)) }
    {
        match self {
            Formula::True => 1,
            Formula::False => 1,
            Formula::Rel(_, args) => depth_of_terms(args).saturating_add(1),
            Formula::Eq(a, b) => a.depth().max(b.depth()).saturating_add(1),
            Formula::Not(p) => p.depth().saturating_add(1),
            Formula::And(ps) => depth_of_formulas(ps).saturating_add(1),
            Formula::Or(ps) => depth_of_formulas(ps).saturating_add(1),
            Formula::Implies(p, q) => p.depth().max(q.depth()).saturating_add(1),
            Formula::Iff(p, q) => p.depth().max(q.depth()).saturating_add(1),
            Formula::Forall(_, p) => p.depth().saturating_add(1),
            Formula::Exists(_, p) => p.depth().saturating_add(1),
        }
    }
}

// An index is one node, and a number of four bytes.
fn node_of_index(index: u32) -> u64
    ensures count { result ≡ 1 }
    ensures index { index < 2 ^ 32 }
{
    1
}

#[cycle(nodes)]
fn nodes_of_terms(terms: &[Term]) -> u64
    ensures count { result ≡ saturated (terms_nodes (terms_view terms.now)) }
    ensures indices { IndicesFitTerms (terms_view terms.now) }
{
    let mut sum = 0u64;
    for t in terms {
        sum = sum.saturating_add(t.nodes());
    }
    sum
}

#[cycle(nodes)]
fn nodes_of_formulas(formulas: &[Formula]) -> u64
    ensures count { result ≡ saturated (forms_nodes (forms formulas.now)) }
    ensures indices { IndicesFitAll (forms formulas.now) }
{
    let mut sum = 0u64;
    for p in formulas {
        sum = sum.saturating_add(p.nodes());
    }
    sum
}

#[cycle(depth)]
fn depth_of_terms(terms: &[Term]) -> u64
    ensures { result ≡ saturated (terms_depth (terms_view terms.now)) }
{
    let mut most = 0u64;
    for t in terms {
        most = most.max(t.depth());
    }
    most
}

#[cycle(depth)]
fn depth_of_formulas(formulas: &[Formula]) -> u64
    ensures { result ≡ saturated (forms_depth (forms formulas.now)) }
{
    let mut most = 0u64;
    for p in formulas {
        most = most.max(p.depth());
    }
    most
}
