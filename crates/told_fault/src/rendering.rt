// The file, the line and the column of a fault, as compilers name them, and below it the line itself with a caret.
ghost use Rattle.std.specs.Prelude.{◌≤◌, length};
ghost use Rattle.told_text.specs.Written.{Wrote};
ghost use Rattle.told_fault.specs.Diagnostics.{place_text, head_line, source_line, caret_line};
ghost use Rattle.told_fault.specs.Diagnostics.{diagnostic_text};

use crate::source::{line_before, line_from, push_blanks, push_shown};
use rml_lex::{Fault, place};
use std::alloc::Global;
use told_text::Text;

#[tactic(auto, using(std::proofs::Common::append_assoc), unfolding(crate::specs::Diagnostics::place_text))]
fn push_place(out: &mut Text, file: &str, line: u64, column: u64)
    ensures { Wrote out.old out.new (place_text file.now line column) }
{
    out.push_str(file);
    out.push_str(":");
    out.push_number(line);
    out.push_str(":");
    out.push_number(column);
    out.push_str(": ");
}

#[tactic(auto, using(std::proofs::Common::append_assoc), unfolding(crate::specs::Diagnostics::head_line))]
fn push_head(out: &mut Text, file: &str, text: &[u8], fault: &Fault)
    requires { fault.now.at ≤ length text.now }
    ensures { Wrote out.old out.new (head_line file.now text.now fault.now) }
{
    let (line, column) = place(text, fault.at);
    push_place(out, file, line, column);
    out.push_str("F");
    out.push_number(fault.code.number() as u64);
    out.push_str(" ");
    out.push_str(fault.code.text());
    out.push_str("\n");
}

#[tactic(auto, using(std::proofs::Common::append_assoc), unfolding(crate::specs::Diagnostics::source_line))]
fn push_source(out: &mut Text, text: &[u8], at: u64)
    requires { at ≤ length text.now }
    ensures { Wrote out.old out.new (source_line text.now at) }
{
    let (line, _) = place(text, at);
    out.push_number(line);
    out.push_str(" | ");
    push_shown(out, line_before(text, at));
    push_shown(out, line_from(text, at));
    out.push_str("\n");
}

// Under the number of the line stand as many blanks.
#[tactic(auto, using(std::proofs::Common::append_assoc), unfolding(crate::specs::Diagnostics::caret_line))]
fn push_caret(alloc: Global, out: &mut Text, text: &[u8], at: u64)
    requires { at ≤ length text.now }
    ensures { Wrote out.old out.new (caret_line text.now at) }
{
    let (line, column) = place(text, at);
    let mut number = Text::new(alloc);
    number.push_number(line);
    out.needs(&number);
    push_blanks(out, number.as_bytes().len() as u64);
    out.push_str(" | ");
    push_blanks(out, column.saturating_sub(1));
    out.push_str("^\n");
}

/// Adds the text of a fault of the file: its place and its words, the line, and a caret.
#[tactic(auto, using(std::proofs::Common::append_assoc), unfolding(crate::specs::Diagnostics::diagnostic_text))]
pub fn push_diagnostic(alloc: Global, out: &mut Text, file: &str, text: &[u8], fault: &Fault)
    requires { fault.now.at ≤ length text.now }
    ensures { Wrote out.old out.new (diagnostic_text file.now text.now fault.now) }
{
    push_head(out, file, text, fault);
    push_source(out, text, fault.at);
    push_caret(alloc, out, text, fault.at);
}
