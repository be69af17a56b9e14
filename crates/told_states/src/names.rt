// Names, and what a report says of stages and goals.
ghost use Rattle.rml_report.specs.Words.{name_at, labelled};
ghost use Rattle.rml_report.specs.ReportText.{stage_text, head_text};
ghost use Rattle.told_text.specs.Written.{Wrote};

use rml_command::{About, Name, Names, Stage};
use told_text::Text;

/// Adds the name of this number; nothing where there is none.
pub fn push_name(out: &mut Text, names: &[Name], k: u32)
    ensures { Wrote out.old out.new (name_at names.now k) }
{
    if let Some(name) = names.get(k as usize) {
        out.push_bytes(name.as_slice());
    }
}

/// Adds a name between two words; nothing stands for one that is not there.
#[tactic(auto, using(std::proofs::Common::append_assoc), unfolding(rml_report::specs::Words::labelled))]
pub fn push_labelled(out: &mut Text, before: &str, names: &[Name], k: u32, behind: &str)
    ensures { Wrote out.old out.new (labelled before.now (name_at names.now k) behind.now) }
{
    out.push_str(before);
    push_name(out, names, k);
    out.push_str(behind);
}

/// Adds `init`, `action NAME` or `final`.
#[tactic(auto, using(std::proofs::Common::append_assoc))]
pub fn push_stage(out: &mut Text, names: &Names, stage: Stage)
    ensures { Wrote out.old out.new (stage_text names.now stage) }
{
    match stage {
        Stage::Init => out.push_str("init"),
        Stage::Action(action) => {
            out.push_str("action ");
            push_name(out, names.actions.as_slice(), action);
        }
        Stage::Final => out.push_str("final"),
    }
}

/// Adds the stage, and `abort` or the name of a conjecture.
#[tactic(auto, using(std::proofs::Common::append_assoc), unfolding(rml_report::specs::ReportText::head_text))]
pub fn push_head(out: &mut Text, names: &Names, stage: Stage, about: About)
    ensures { Wrote out.old out.new (head_text names.now stage about) }
{
    push_stage(out, names, stage);
    match about {
        About::Abort => out.push_str(" abort"),
        About::Conjecture(conjecture) => {
            out.push_str(" ");
            push_name(out, names.conjectures.as_slice(), conjecture);
        }
    }
}
