// A report in short: the verdict, how many groups hold, and what is said of the others.
use base::Mem;
use limits::Cause;
use rml_report::{Answer, Report, Verdict};
use std::alloc::Global;

fn word_of(verdict: Verdict) -> &'static str {
    match verdict {
        Verdict::Inductive => "inductive",
        Verdict::NotInductive => "not inductive",
        Verdict::Undecided => "undecided",
    }
}

fn cause_text(alloc: Global, cause: Cause) -> Mem<String> {
    match cause {
        Cause::Formula => String::from_str(alloc, "formula"),
        Cause::Terms(count) => format!(in alloc; "terms {count}"),
        Cause::Ground(count) => format!(in alloc; "ground {count}"),
        Cause::Conflicts(count) => format!(in alloc; "conflicts {count}"),
    }
}

fn holding(report: &Report) -> usize {
    let groups = report.groups.as_slice();
    groups
        .iter()
        .filter(|group| matches!(group.answer, Answer::Holds))
        .count()
}

/// What a report says, in short.
pub fn told(alloc: Global, report: &Report) -> Mem<String> {
    let verdict = word_of(report.verdict);
    let holding = holding(report);
    let mut text = format!(in alloc; "{verdict}, {holding} hold")?;
    for group in report.groups.as_slice() {
        match group.answer {
            Answer::Holds => {}
            Answer::Fails { .. } => text.push_str(", one fails")?,
            Answer::Undecided { cause, .. } => {
                let cause = cause_text(alloc, cause)?;
                text.push_str(", ")?;
                text.push_str(cause.as_str())?;
            }
        }
    }
    Ok(text)
}
