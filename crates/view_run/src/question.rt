// A question about the text of a model: what answers it, and what is shown of the answer.
ghost use Rattle.std.specs.Prelude.{IfOk};
ghost use Rattle.view_run.specs.Inquiries.{IsAnswerTo};
ghost use Rattle.view_run.specs.Views.{IsViewed};
ghost use Rattle.view_run.specs.Questions.{view_due};

use crate::bmc::say_bmc;
use crate::check::say_check;
use crate::houdini::say_houdini;
use crate::inquiry::Inquiry;
use crate::replay::say_replay;
use crate::showing::Showing;
use crate::viewed::{ModelAnswer, Viewed};
use crate::why::{judge_groups, say_why};
use base::Mem;
use commands::{Command, Said};
use progress::Progress;
use replay_command::Replay;
use std::alloc::Global;
use told_fault::read;

/// The question, how the answer is shown, and the name of the report's file, which is empty where no report is asked
/// about.
#[derive(Drop)]
pub struct View<'a> {
    pub inquiry: Inquiry,
    pub showing: Showing<'a>,
    pub report: &'a str,
}

// The answer to the text of a model, and to a second text, which is empty where there is none.
fn answer_to<P: Progress>(
    alloc: Global,
    inquiry: &Inquiry,
    text: &[u8],
    other: &[u8],
    progress: &mut P,
) -> Mem<ModelAnswer>
    ensures { IfOk result (IsAnswerTo inquiry.now text.now other.now) }
{
    match inquiry {
        Inquiry::Check(check) => Ok(ModelAnswer::Check(check.judge(alloc, text, other, progress)?)),
        Inquiry::Houdini(houdini) => Ok(ModelAnswer::Houdini(houdini.judge(
            alloc, text, other, progress,
        )?)),
        Inquiry::Bmc(bmc) => Ok(ModelAnswer::Bmc(bmc.judge(alloc, text, other, progress)?)),
        Inquiry::Why(why) => Ok(ModelAnswer::Why(judge_groups(alloc, text, why.asked, progress)?)),
        Inquiry::Replay => Ok(ModelAnswer::Replay(Replay.judge(alloc, text, other, progress)?)),
    }
}

impl<'a> Command for View<'a> {
    type Answer = Viewed;

    ghost is_answer = { λ v first second a. IsViewed (IsAnswerTo v.inquiry first second) first a };

    ghost due = { λ v first second a. view_due v.showing.form v.showing.file.now v.report.now first a };

    fn judge<P: Progress>(
        &self,
        alloc: Global,
        first: &[u8],
        second: &[u8],
        progress: &mut P,
    ) -> Mem<Viewed> {
        let reading = read(alloc, first)?;
        match answer_to(alloc, &self.inquiry, first, second, progress) {
            Ok(answer) => Ok(Viewed { answer, reading }),
            Err(wanting) => {
                drop(reading);
                Err(wanting)
            }
        }
    }

    fn say(&self, alloc: Global, first: &[u8], second: &[u8], answer: &Viewed) -> Mem<Said> {
        let reading = &answer.reading;
        match (&self.inquiry, &answer.answer) {
            (Inquiry::Check(check), ModelAnswer::Check(answer)) => {
                say_check(alloc, self.showing, check, first, reading, answer)
            }
            (Inquiry::Houdini(houdini), ModelAnswer::Houdini(answer)) => {
                say_houdini(alloc, self.showing, houdini, first, reading, answer)
            }
            (Inquiry::Bmc(bmc), ModelAnswer::Bmc(answer)) => {
                say_bmc(alloc, self.showing, bmc, first, reading, answer)
            }
            (Inquiry::Why(why), ModelAnswer::Why(answer)) => {
                say_why(alloc, self.showing, why, first, reading, answer)
            }
            (Inquiry::Replay, ModelAnswer::Replay(answer)) => {
                say_replay(
                    alloc,
                    self.showing,
                    self.report,
                    first,
                    second,
                    reading,
                    answer,
                )
            }
            _ => unreachable!(),
        }
    }
}
