// Writes the text of lines, the one that the definition says, so that a log is read again as the same.
ghost use Rattle.std.specs.Prelude.{◌≡◌, ◌++◌, ◌∷◌, OnOk, IfOk};
ghost use Rattle.lrat_log.specs.Writing.{ids_text, line_text, text_of};

use crate::{Line, Log};
use base::{Mem, push_number};
use cnf_base::push_literals;
use std::alloc::Global;

#[tactic(auto, using(std::proofs::Common::append_assoc))]
fn push_ids(out: &mut Vec<u8>, ids: &[u32]) -> Mem<()>
    ensures { OnOk result (out.new.items ≡ out.old.items ++ ids_text ids.now) }
{
    let mut rest = ids;
    while let [id, after @ ..] = rest {
        push_number(out, *id as u64)?;
        out.push(b' ')?;
        rest = after;
    }
    Ok(())
}

#[tactic(auto, using(std::proofs::Common::append_assoc))]
fn push_line(out: &mut Vec<u8>, line: &Line) -> Mem<()>
    ensures { OnOk result (out.new.items ≡ out.old.items ++ line_text line.now) }
{
    match line {
        Line::Add { id, lits, hints } => {
            push_number(out, *id as u64)?;
            out.push(b' ')?;
            push_literals(out, lits.as_slice())?;
            out.extend_from_slice(b"0 ")?;
            push_ids(out, hints.as_slice())?;
            out.extend_from_slice(b"0\n")?;
            Ok(())
        }
        Line::Delete { id, ids } => {
            push_number(out, *id as u64)?;
            out.extend_from_slice(b" d ")?;
            push_ids(out, ids.as_slice())?;
            out.extend_from_slice(b"0\n")?;
            Ok(())
        }
    }
}

#[tactic(auto, using(std::proofs::Common::append_assoc))]
fn push_lines(out: &mut Vec<u8>, lines: &[Line]) -> Mem<()>
    ensures { OnOk result (out.new.items ≡ out.old.items ++ text_of lines.now) }
{
    let mut rest = lines;
    while let [line, after @ ..] = rest {
        push_line(out, line)?;
        rest = after;
    }
    Ok(())
}

/// The text of some lines, one line of text for each addition and deletion.
pub fn write_lines(alloc: Global, lines: &[Line]) -> Mem<Vec<u8>>
    ensures { IfOk result (λ text. text.items ≡ text_of lines.now) }
{
    let mut out = Vec::new(alloc);
    push_lines(&mut out, lines)?;
    Ok(out)
}

/// The text of a log. It is read again as the same log, for a formula whose variables it keeps to and
/// whose clauses have smaller ids.
pub fn write_log(alloc: Global, log: &Log) -> Mem<Vec<u8>>
    ensures { IfOk result (λ text. text.items ≡ text_of log.now) }
{
    let text = write_lines(alloc, log.lines())?;
    Ok(text)
}
