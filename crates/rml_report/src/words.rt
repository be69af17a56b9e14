// Words, numbers and names.
ghost use Rattle.std.specs.Prelude.{◌≡◌, ◌++◌, OnOk, decimal};
ghost use Rattle.rml_report.specs.Words.{name_at, labelled, truth_text, numbers_text, numbers_line, cause_text};

use base::{Mem, push_number, push_text};
use limits::Cause;
use rml_command::Name;

/// Adds the name of this number; nothing where there is none.
pub fn push_name(out: &mut Vec<u8>, names: &[Name], k: u32) -> Mem<()>
    ensures { OnOk result (out.new.items ≡ out.old.items ++ name_at names.now k) }
{
    match names.get(k as usize) {
        None => Ok(()),
        Some(name) => out.extend_from_slice(name.as_slice()),
    }
}

/// Adds a name between two words; nothing stands for one that is not there.
#[tactic(auto, using(std::proofs::Common::append_assoc), unfolding(crate::specs::Words::labelled))]
pub fn push_labelled(
    out: &mut Vec<u8>,
    before: &str,
    names: &[Name],
    k: u32,
    behind: &str,
) -> Mem<()>
    ensures { OnOk result (out.new.items ≡ out.old.items ++ labelled before.now (name_at names.now k) behind.now) }
{
    push_text(out, before)?;
    push_name(out, names, k)?;
    push_text(out, behind)?;
    Ok(())
}

#[tactic(auto, unfolding(crate::specs::Words::truth_text))]
pub fn push_truth(out: &mut Vec<u8>, value: bool) -> Mem<()>
    ensures { OnOk result (out.new.items ≡ out.old.items ++ truth_text value) }
{
    if value {
        push_text(out, "true")
    } else {
        push_text(out, "false")
    }
}

// A word and a number.
#[tactic(auto, using(std::proofs::Common::append_assoc))]
fn push_counted(out: &mut Vec<u8>, word: &str, n: u64) -> Mem<()>
    ensures { OnOk result (out.new.items ≡ out.old.items ++ (word.now ++ decimal n)) }
{
    push_text(out, word)?;
    push_number(out, n)?;
    Ok(())
}

/// Adds the words of a cause behind what is there. After want of memory there may be some of them.
pub fn push_cause(out: &mut Vec<u8>, cause: &Cause) -> Mem<()>
    ensures { OnOk result (out.new.items ≡ out.old.items ++ cause_text cause.now) }
{
    match cause {
        Cause::Formula => push_text(out, "formula"),
        Cause::Terms(n) => push_counted(out, "terms ", *n),
        Cause::Ground(n) => push_counted(out, "ground ", *n),
        Cause::Conflicts(n) => push_counted(out, "conflicts ", *n),
    }
}

// A blank and each number.
#[tactic(auto, using(std::proofs::Common::append_assoc), unfolding(crate::specs::Words::numbers_text))]
fn push_numbers(out: &mut Vec<u8>, numbers: &[u32]) -> Mem<()>
    ensures { OnOk result (out.new.items ≡ out.old.items ++ numbers_text numbers.now) }
{
    let mut rest = numbers;
    while let [number, after @ ..] = rest {
        push_text(out, " ")?;
        push_number(out, *number as u64)?;
        rest = after;
    }
    Ok(())
}

/// Adds a word, the numbers, and the end of the line.
#[tactic(auto, using(std::proofs::Common::append_assoc), unfolding(crate::specs::Words::numbers_line))]
pub fn push_numbers_line(out: &mut Vec<u8>, word: &str, numbers: &[u32]) -> Mem<()>
    ensures { OnOk result (out.new.items ≡ out.old.items ++ numbers_line word.now numbers.now) }
{
    push_text(out, word)?;
    push_numbers(out, numbers)?;
    push_text(out, "\n")?;
    Ok(())
}
