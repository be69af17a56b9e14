// The nodes of a model's sentences.
ghost use Rattle.std.specs.Prelude.{IfOk};
ghost use Rattle.fol_pool.specs.Trees.{IsAt, Grows, a_form};
ghost use Rattle.fol_pool.specs.Rows.{AreForms};
ghost use Rattle.fol_formula.specs.Sentences.{all_of};
ghost use Rattle.pool_wp.specs.Standing.{AreNodesOf};

use base::Mem;
use fol_formula::Sentence;
use fol_pool::{Node, Pool, Shape};
use rml_command::Model;
use std::alloc::Global;

/// The nodes of a model's axioms and conjectures in a pool. They are taken in once, and the sentences of all goals of
/// the model are made of them.
#[derive(Drop)]
pub struct ModelNodes {
    // The And of the axioms.
    pub(crate) lawful: Node,
    pub(crate) conjectures: Vec<Node>,
    // The And of the conjectures.
    pub(crate) held: Node,
}

impl ModelNodes {
    /// Takes the axioms and the conjectures of a model in. Err: out of memory; some may have been added, and each node
    /// that was there is as before.
    pub fn new(alloc: Global, pool: &mut Pool, model: &Model) -> Mem<ModelNodes>
        ensures nodes { IfOk result (λ nodes. AreNodesOf model.now pool.new nodes) }
        ensures grows { Grows pool.old pool.new }
    {
        let (_, lawful) = take_all(alloc, pool, model.axioms())?;
        let (conjectures, held) = take_all(alloc, pool, model.conjectures())?;
        Ok(ModelNodes {
            lawful,
            conjectures,
            held,
        })
    }
}

// The nodes of sentences, in order, and that of the And of all.
fn take_all(alloc: Global, pool: &mut Pool, sentences: &[Sentence]) -> Mem<(Vec<Node>, Node)>
    ensures nodes { IfOk result (λ taken. AreForms pool.new taken.0.items sentences.now) }
    ensures all { IfOk result (λ taken. IsAt pool.new taken.1.0 (a_form (all_of sentences.now))) }
    ensures grows { Grows pool.old pool.new }
{
    let nodes = take_each(alloc, pool, sentences)?;
    let row = pool.row_of(&nodes)?;
    let all = pool.add(Shape::And(row))?;
    Ok((nodes, all))
}

// The nodes of sentences, in order.
fn take_each(alloc: Global, pool: &mut Pool, sentences: &[Sentence]) -> Mem<Vec<Node>>
    ensures nodes { IfOk result (λ nodes. AreForms pool.new nodes.items sentences.now) }
    ensures grows { Grows pool.old pool.new }
{
    let mut nodes = Vec::with_capacity(alloc, sentences.len())?;
    for sentence in sentences {
        let node = pool.take_in(sentence.formula())?;
        nodes.push(node)?;
    }
    Ok(nodes)
}
