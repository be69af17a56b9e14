// The sentences of a goal: its precondition, and the sentence that refutes it.
ghost use Rattle.rml_command.specs.Goals.{IsGoal};

use crate::ground::ground_of;
use base::{Mem, Refused};
use fol_subst::FormulaLimit;
use rml_command::{Checked, Goal};
use rml_wp::{Premises, precondition, refuting};
use std::alloc::{AllocError, Global};

fn precondition_nodes(
    alloc: Global,
    checked: &Checked,
    goal: &Goal,
) -> Result<u64, Refused<FormulaLimit>>
    requires { IsGoal checked.now goal.now }
{
    let (answered, precondition) = precondition(alloc, checked, Premises::All, goal)?;
    let nodes = precondition.sentence().nodes();
    drop(precondition);
    drop(answered);
    Ok(nodes)
}

fn refuting_of(alloc: Global, checked: &Checked, goal: &Goal) -> Mem<String>
    requires { IsGoal checked.now goal.now }
{
    rml_wp::sentence_law();
    rml_wp::answered_goal(checked, goal);
    let _checked = checked.model();
    match refuting(alloc, checked, Premises::All, goal) {
        Ok((answered, sentence)) => {
            let nodes = sentence.sentence().nodes();
            let ground = ground_of(alloc, &answered, checked.strata(), &sentence);
            drop(sentence);
            drop(answered);
            let ground = ground?;
            let ground = ground.as_str();
            format!(in alloc; "refuting {nodes} nodes, {ground}")
        }
        Err(Refused::NoMemory) => Err(AllocError),
        Err(Refused::For(_)) => String::from_str(alloc, "no refuting sentence"),
    }
}

/// What is said of a goal.
pub fn sentences_of(alloc: Global, checked: &Checked, goal: &Goal) -> Mem<String>
    requires { IsGoal checked.now goal.now }
{
    match precondition_nodes(alloc, checked, goal) {
        Ok(nodes) => {
            let refuting = refuting_of(alloc, checked, goal)?;
            let refuting = refuting.as_str();
            format!(in alloc; "precondition {nodes} nodes, {refuting}")
        }
        Err(Refused::NoMemory) => Err(AllocError),
        Err(Refused::For(limit)) => format!(in alloc; "{limit:?}"),
    }
}
