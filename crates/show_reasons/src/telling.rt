// What carries a group, on lines of text.
use base::{Mem, push_number, push_text};
use rml_command::Names;
use rml_reasons::{Carried, Lack, Need};
use rml_report::{push_cause, push_labelled};

fn push_lack(out: &mut Vec<u8>, lack: &Lack) -> Mem<()> {
    match lack {
        Lack::Fails(shown) => {
            push_text(out, "path ")?;
            push_number(out, shown.trace.path as u64)?;
            push_text(out, " fails")
        }
        Lack::Open(goal, cause) => {
            push_text(out, "path ")?;
            push_number(out, goal.path as u64)?;
            push_text(out, " is left open, ")?;
            push_cause(out, cause)
        }
    }
}

fn push_needs(out: &mut Vec<u8>, names: &Names, needs: &[Need]) -> Mem<()> {
    for need in needs {
        push_labelled(
            out,
            "\n    ",
            names.conjectures.as_slice(),
            need.conjecture,
            ", without which ",
        )?;
        push_lack(out, &need.lack)?;
    }
    Ok(())
}

/// What carries a group, behind its head.
pub fn push_carried(out: &mut Vec<u8>, names: &Names, carried: &Carried) -> Mem<()> {
    match carried {
        Carried::By(needs) if needs.is_empty() => push_text(out, ": carried by no conjecture"),
        Carried::By(needs) => {
            push_text(out, ": carried by")?;
            push_needs(out, names, needs.as_slice())
        }
        Carried::Not(lack) => {
            push_text(out, ": carried by nothing, with all held ")?;
            push_lack(out, lack)
        }
    }
}
