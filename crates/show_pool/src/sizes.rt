// The size of a goal, read off a pool.
ghost use Rattle.std.specs.Prelude.{◌≡◌, [], IfSome};
ghost use Rattle.fol_pool.specs.Trees.{HasForm, form_at};
ghost use Rattle.rml_command.specs.Models.{ModelTree};
ghost use Rattle.rml_command.specs.Goals.{IsGoal};
ghost use Rattle.rml_wp.specs.Preconditions.{answered as answered_of};
ghost use Rattle.rml_wp.specs.Added.{refuting_where};
ghost use Rattle.pool_wp.specs.Sharing.{IsPoolOf};
ghost use Rattle.rml_wp.specs.declared.premises.Premises.TheVariants.{All};

use base::{Mem, Refused};
use fol_pool::Node;
use fol_sig::Signature;
use ground_size::GroundSize;
use pool_wp::ModelPool;
use rml_command::{About, Checked, Goal, Stage};
use std::alloc::{AllocError, Global};

/// The goal of a model's first action, its first path and its first conjecture, if the model has it.
pub fn first_goal(checked: &Checked) -> Option<Goal>
    ensures { IfSome result (IsGoal checked.now) }
{
    let stage = Stage::Action(0);
    let paths = checked.stage_paths(stage);
    if paths.len() == 0 || checked.model().conjectures().is_empty() || paths.path(0).has_abort() {
        return None;
    }
    Some(Goal {
        stage,
        path: 1,
        about: About::Conjecture(0),
    })
}

/// Its refuting sentence as a tree and in a pool, and the size of its ground formulas.
pub fn size_of_goal(alloc: Global, model: &Checked, goal: &Goal) -> Mem<String>
    requires { IsGoal model.now goal.now }
{
    let mut shared = ModelPool::new(alloc, model.model())?;
    let own = shared.pool().len();
    match shared.refuting(alloc, model, goal) {
        Ok((answered, node)) => {
            let found = measured(alloc, &mut shared, model, goal, &answered, node)?;
            let terms = found.terms;
            let size = found.size;
            let pool = shared.pool();
            let tree = pool.nodes(node);
            let kept = pool.len();
            shared.forget();
            let left = shared.pool().len();
            format!(in alloc;
                "{terms} terms, ground size {size}, {tree} nodes as a tree, {kept} nodes in the pool, \
                 {own} of them the model's, {left} left"
            )
        }
        Err(Refused::NoMemory) => Err(AllocError),
        Err(Refused::For(_)) => String::from_str(alloc, "over the limit of formulas"),
    }
}

fn measured(
    alloc: Global,
    shared: &mut ModelPool,
    checked: &Checked,
    goal: &Goal,
    answered: &Signature,
    node: Node,
) -> Mem<GroundSize>
    requires goal { IsGoal checked.now goal.now }
    requires answered { answered.now ≡ answered_of checked.now goal.now }
    requires there { HasForm shared.old.pool node.0 }
    requires sentence { form_at shared.old.pool node.0
        ≡ refuting_where All checked.now checked.now.conjectures [] goal.now }
    ensures pool { shared.new.pool ≡ shared.old.pool }
    ensures shared { (m : ModelTree) → IsPoolOf m shared.old → IsPoolOf m shared.new }
{
    rml_wp::sentence_law();
    rml_wp::answered_goal(checked, goal);
    let _model = checked.model();
    let found = shared.ground_size(alloc, answered, checked.strata(), node)?;
    Ok(found)
}
