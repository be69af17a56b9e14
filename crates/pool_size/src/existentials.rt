// The existentials that a sentence has in normal form, sort by sort, without the normal form. Each part stands in the
// sentence some times as it is and some times negated; in an equivalence it stands both ways. The parts of a node have
// smaller numbers, so the nodes are gone through from the sentence down: all that hold a node are done before it.
ghost use Rattle.std.specs.Prelude.{◌≡◌, ◌<◌, ◌≤◌, length, replicate, IfOk};
ghost use Rattle.fol_pool.specs.Trees.{HasForm, form_at, tree_at};
ghost use Rattle.ground_size.specs.Existentials.{AreConstants};
ghost use Rattle.ground_size.specs.Walks.{raised_at};
ghost use Rattle.pool_size.specs.Existentials.{nowhere, both_ways, with_more, with_parts, with_quantifier, IsSharedOut};

use base::Mem;
use fol_pool::{Node, Pool, Shape};
use fol_sig::{Signature, Sort};
use ground_size::SignedCount;
use std::alloc::Global;

// How many existentials of each sort of the signature the normal form of the sentence has.
pub fn constants(
    alloc: Global,
    signature: &Signature,
    pool: &Pool,
    sentence: Node,
    table: &mut Vec<SignedCount>,
) -> Mem<Vec<u64>>
    requires { HasForm pool.now sentence.0 }
    ensures { IfOk result
        (λ constants. AreConstants signature.now.sorts (form_at pool.now sentence.0) constants.items) }
{
    let mut counts = vec![in alloc; 0u64; signature.sorts() as usize]?;
    table.clear();
    table.resize(sentence.0 as usize, SignedCount::NONE)?;
    count_down(&mut counts, table, pool, sentence);
    Ok(counts)
}

// From the sentence down, where nothing is counted yet.
fn count_down(counts: &mut [u64], table: &mut [SignedCount], pool: &Pool, sentence: Node)
    requires form { HasForm pool.now sentence.0 }
    requires sorts { counts.old ≡ replicate (length counts.old) 0 }
    requires nodes { table.old ≡ replicate sentence.0 nowhere }
    ensures sorts { length counts.new ≡ length counts.old }
    ensures constants { AreConstants (length counts.old) (form_at pool.now sentence.0) counts.new }
{
    let once = SignedCount {
        positive: 1,
        negative: 0,
    };
    share_out(counts, table, pool, sentence, once);
    for i in (0..sentence.0).rev() {
        let times = table[i as usize];
        share_out(counts, table, pool, Node(i), times);
    }
}

// Of a node that stands so many times, the quantifier is counted, and the parts stand so many times more.
fn share_out(
    counts: &mut [u64],
    table: &mut [SignedCount],
    pool: &Pool,
    node: Node,
    times: SignedCount,
)
    requires there { node.0 < length pool.now }
    requires before { node.0 ≤ length table.old }
    ensures sorts { length counts.new ≡ length counts.old }
    ensures nodes { length table.new ≡ length table.old }
    ensures shared { IsSharedOut pool.now node.0 (tree_at pool.now node.0) times
        counts.old table.old counts.new table.new }
{
    ground_size::existential_laws();
    let shape = pool.shape(node);
    count_quantifier(counts, shape, times);
    add_parts(table, shape, times);
}

// A universal is an existential where it is negated.
fn count_quantifier(counts: &mut [u64], shape: Shape, times: SignedCount)
    ensures { counts.new ≡ with_quantifier shape times counts.old }
{
    match shape {
        Shape::Forall(sort, _) => raise(counts, sort, times.negative),
        Shape::Exists(sort, _) => raise(counts, sort, times.positive),
        _ => {}
    }
}

// The parts of a node stand so many times more; what is negated, and a premise, the other way round.
fn add_parts(table: &mut [SignedCount], shape: Shape, times: SignedCount)
    ensures { table.new ≡ with_parts shape times table.old }
{
    match shape {
        Shape::Not(p) => add(table, p, times.opposite()),
        Shape::And(ps) => add(table, ps, times),
        Shape::Or(ps) => add(table, ps, times),
        Shape::Implies(p, q) => {
            add(table, p, times.opposite());
            add(table, q, times);
        }
        Shape::Iff(p, q) => {
            add(table, p, both_ways(times));
            add(table, q, both_ways(times));
        }
        Shape::Forall(_, p) => add(table, p, times),
        Shape::Exists(_, p) => add(table, p, times),
        Shape::FormThen(p, ps) => {
            add(table, p, times);
            add(table, ps, times);
        }
        _ => {}
    }
}

// So many existentials more; a sort that there is not has none.
fn raise(counts: &mut [u64], sort: Sort, by: u64)
    ensures { counts.new ≡ raised_at counts.old sort.0 by }
{
    let place = sort.0 as usize;
    if place < counts.len() {
        counts[place] = counts[place].saturating_add(by);
    }
}

// A node stands so many times more. Each part has its place in the table; a node beyond that would not be counted.
fn add(table: &mut [SignedCount], node: Node, more: SignedCount)
    ensures { table.new ≡ with_more table.old node.0 more }
{
    let place = node.0 as usize;
    if place < table.len() {
        table[place] = table[place].beside(more);
    }
}

// A side of an equivalence stands as it is and negated, each as often as the equivalence in all.
fn both_ways(times: SignedCount) -> SignedCount
    ensures { result ≡ both_ways times }
{
    SignedCount::of_both(times.positive.saturating_add(times.negative))
}
