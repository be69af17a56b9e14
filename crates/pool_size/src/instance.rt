// The nodes of the instance of a sentence's normal form. Neither is made: at each node the sizes of both polarities are
// counted, from those of its parts, which have smaller numbers.
ghost use Rattle.std.specs.Prelude.{◌≡◌, ◌<◌, length, true, IfOk};
ghost use Rattle.fol_formula.specs.Counts.{saturated};
ghost use Rattle.fol_formula.specs.Syntax.{equivalence, implication, ite};
ghost use Rattle.fol_nnf.specs.Normal.{normal, leaves, leaves_of_terms};
ghost use Rattle.fol_pool.specs.Trees.{HasForm, HasForms, HasTerm, HasTerms};
ghost use Rattle.fol_pool.specs.Trees.{form_at, forms_at, term_at, terms_at, tree_at};
ghost use Rattle.fol_pool.specs.Shapes.{tree_of, IsOver, PartsAreBelow};
ghost use Rattle.ground_size.specs.Sizes.{instance_nodes as instance_nodes_of};
ghost use Rattle.ground_size.specs.Leaves.{AreSizesOf, AreSizesOfAll, AreLeavesOf};
ghost use Rattle.pool_size.specs.Counted.{AreRight};
ghost use Rattle.pool_size.specs.Instances.{IsMeasured};

use crate::measure::Measure;
use base::Mem;
use fol_pool::{Node, Pool, Shape};
use ground_size::{Counts, LeafCount, SignedCount};

// The nodes of the instance of the normal form of the sentence, where each sort has so many terms.
pub fn instance_nodes(
    pool: &Pool,
    counts: &Counts,
    sentence: Node,
    table: &mut Vec<Measure>,
) -> Mem<u64>
    requires { HasForm pool.now sentence.0 }
    ensures { IfOk result
        (λ nodes. nodes ≡ saturated (instance_nodes_of counts.now (normal true (form_at pool.now sentence.0)))) }
{
    table.clear();
    table.reserve(sentence.0 as usize + 1)?;
    for i in 0..sentence.0 {
        let measure = measure_at(pool, table, counts, Node(i));
        table.push(measure)?;
    }
    let measure = measure_at(pool, table, counts, sentence);
    table.push(measure)?;
    Ok(of_form(pool, table, counts, sentence).positive)
}

// What is counted at a node, where the nodes before it are counted.
fn measure_at(pool: &Pool, table: &[Measure], counts: &Counts, node: Node) -> Measure
    requires there { node.0 < length pool.now }
    requires before { length table.now ≡ node.0 }
    requires right { AreRight (IsMeasured counts.now) pool.now table.now }
    ensures { IsMeasured counts.now (tree_at pool.now node.0) result }
{
    let shape = pool.shape(node);
    measure_of(pool, table, counts, shape)
}

fn measure_of(pool: &Pool, table: &[Measure], counts: &Counts, shape: Shape) -> Measure
    requires over { IsOver pool.now shape }
    requires below { PartsAreBelow (length table.now) shape }
    requires right { AreRight (IsMeasured counts.now) pool.now table.now }
    ensures { IsMeasured counts.now (tree_of pool.now shape) result }
{
    match shape {
        Shape::True | Shape::False => Measure::Sizes(SignedCount::ONE),
        Shape::Rel(_, args) => Measure::Sizes(of_terms(pool, table, counts, args).relation()),
        Shape::Eq(a, b) => {
            let side = of_term(pool, table, counts, a);
            Measure::Sizes(side.equation(of_term(pool, table, counts, b)))
        }
        Shape::Not(p) => Measure::Sizes(of_form(pool, table, counts, p).opposite()),
        Shape::And(ps) => Measure::Sizes(of_forms(pool, table, counts, ps).gathered()),
        Shape::Or(ps) => Measure::Sizes(of_forms(pool, table, counts, ps).gathered()),
        Shape::Implies(p, q) => Measure::Sizes(implied(pool, table, counts, p, q)),
        Shape::Iff(p, q) => Measure::Sizes(equivalent(pool, table, counts, p, q)),
        Shape::Forall(k, p) => Measure::Sizes(of_form(pool, table, counts, p).under_all(
            counts.of_sort(k),
        )),
        Shape::Exists(k, p) => Measure::Sizes(of_form(pool, table, counts, p).under_some(
            counts.of_sort(k),
        )),
        Shape::NoForms => Measure::Sizes(SignedCount::NONE),
        Shape::FormThen(p, ps) => {
            let first = of_form(pool, table, counts, p);
            Measure::Sizes(first.beside(of_forms(pool, table, counts, ps)))
        }
        Shape::Bound(_) | Shape::NoTerms => Measure::Leaves(LeafCount::ONE),
        Shape::App(_, args) => Measure::Leaves(of_terms(pool, table, counts, args).application()),
        Shape::Ite(p, a, b) => Measure::Leaves(chosen(pool, table, counts, p, a, b)),
        Shape::TermThen(t, ts) => {
            let first = of_term(pool, table, counts, t);
            Measure::Leaves(first.in_front_of(of_terms(pool, table, counts, ts)))
        }
    }
}

// An implication, as an Or of the premise's negation and the conclusion.
fn implied(pool: &Pool, table: &[Measure], counts: &Counts, p: Node, q: Node) -> SignedCount
    requires premise { HasForm pool.now p.0 }
    requires conclusion { HasForm pool.now q.0 }
    requires below_premise { p.0 < length table.now }
    requires below_conclusion { q.0 < length table.now }
    requires right { AreRight (IsMeasured counts.now) pool.now table.now }
    ensures { AreSizesOf counts.now (implication (form_at pool.now p.0) (form_at pool.now q.0)) result }
{
    let premise = of_form(pool, table, counts, p).opposite();
    let both = premise.beside(of_form(pool, table, counts, q));
    both.gathered()
}

// An equivalence, as an Or of two Ands.
fn equivalent(pool: &Pool, table: &[Measure], counts: &Counts, p: Node, q: Node) -> SignedCount
    requires first { HasForm pool.now p.0 }
    requires second { HasForm pool.now q.0 }
    requires below_first { p.0 < length table.now }
    requires below_second { q.0 < length table.now }
    requires right { AreRight (IsMeasured counts.now) pool.now table.now }
    ensures { AreSizesOf counts.now (equivalence (form_at pool.now p.0) (form_at pool.now q.0)) result }
{
    let side = of_form(pool, table, counts, p);
    side.equivalent(of_form(pool, table, counts, q), 3)
}

// The leaves of both terms, under the condition and under its negation.
fn chosen(pool: &Pool, table: &[Measure], counts: &Counts, p: Node, a: Node, b: Node) -> LeafCount
    requires condition { HasForm pool.now p.0 }
    requires first { HasTerm pool.now a.0 }
    requires second { HasTerm pool.now b.0 }
    requires below_condition { p.0 < length table.now }
    requires below_first { a.0 < length table.now }
    requires below_second { b.0 < length table.now }
    requires right { AreRight (IsMeasured counts.now) pool.now table.now }
    ensures { AreLeavesOf counts.now
        (leaves (ite (form_at pool.now p.0) (term_at pool.now a.0) (term_at pool.now b.0))) result }
{
    let condition = of_form(pool, table, counts, p);
    let first = of_term(pool, table, counts, a);
    first.chosen(of_term(pool, table, counts, b), condition)
}

fn of_form(pool: &Pool, table: &[Measure], counts: &Counts, node: Node) -> SignedCount
    requires form { HasForm pool.now node.0 }
    requires below { node.0 < length table.now }
    requires right { AreRight (IsMeasured counts.now) pool.now table.now }
    ensures { AreSizesOf counts.now (form_at pool.now node.0) result }
{
    match table[node.0 as usize] {
        Measure::Sizes(sizes) => sizes,
        Measure::Leaves(_) => unreachable!(),
    }
}

fn of_forms(pool: &Pool, table: &[Measure], counts: &Counts, row: Node) -> SignedCount
    requires row { HasForms pool.now row.0 }
    requires below { row.0 < length table.now }
    requires right { AreRight (IsMeasured counts.now) pool.now table.now }
    ensures { AreSizesOfAll counts.now (forms_at pool.now row.0) result }
{
    match table[row.0 as usize] {
        Measure::Sizes(sizes) => sizes,
        Measure::Leaves(_) => unreachable!(),
    }
}

fn of_term(pool: &Pool, table: &[Measure], counts: &Counts, node: Node) -> LeafCount
    requires term { HasTerm pool.now node.0 }
    requires below { node.0 < length table.now }
    requires right { AreRight (IsMeasured counts.now) pool.now table.now }
    ensures { AreLeavesOf counts.now (leaves (term_at pool.now node.0)) result }
{
    match table[node.0 as usize] {
        Measure::Leaves(leaves) => leaves,
        Measure::Sizes(_) => unreachable!(),
    }
}

fn of_terms(pool: &Pool, table: &[Measure], counts: &Counts, row: Node) -> LeafCount
    requires row { HasTerms pool.now row.0 }
    requires below { row.0 < length table.now }
    requires right { AreRight (IsMeasured counts.now) pool.now table.now }
    ensures { AreLeavesOf counts.now (leaves_of_terms (terms_at pool.now row.0)) result }
{
    match table[row.0 as usize] {
        Measure::Leaves(leaves) => leaves,
        Measure::Sizes(_) => unreachable!(),
    }
}
