// The lines of faults and refusals. Each code knows its number and its words; what stands here is the letter that tells
// whose code it is, and the place.
ghost use Rattle.std.specs.Prelude.{◌≡◌, ◌≤◌, length, IfOk};
ghost use Rattle.command_parts.specs.Faults.{letter_of, number_of, text_of, fault_line, model_fault_due, refusal_line};

use crate::saying::complaint;
use base::{Mem, push_number, push_text};
use cnf_base::CnfFaultCode;
use commands::Said;
use lrat_log::{LogFaultCode, RefusalCode};
use rml_lex::{Fault, FaultCode, place};
use std::alloc::Global;

/// What a line of a report names: a code, and whose it is.
#[derive(Clone, Copy)]
pub enum ReportCode {
    /// A fault of a model's text.
    Model(FaultCode),
    /// A fault of a formula's text.
    Formula(CnfFaultCode),
    /// A fault of a log's text.
    Log(LogFaultCode),
    /// A line of a log that is not accepted.
    Refusal(RefusalCode),
}

impl ReportCode {
    fn letter(self) -> &'static str
        ensures { result.now ≡ letter_of self }
    {
        match self {
            ReportCode::Model(_) => "F",
            ReportCode::Formula(_) => "N",
            ReportCode::Log(_) => "L",
            ReportCode::Refusal(_) => "C",
        }
    }

    fn number(self) -> u8
        ensures { result ≡ number_of self }
    {
        match self {
            ReportCode::Model(code) => code.number(),
            ReportCode::Formula(code) => code.number(),
            ReportCode::Log(code) => code.number(),
            ReportCode::Refusal(code) => code.number(),
        }
    }

    fn text(self) -> &'static str
        ensures { result.now ≡ text_of self }
    {
        match self {
            ReportCode::Model(code) => code.text(),
            ReportCode::Formula(code) => code.text(),
            ReportCode::Log(code) => code.text(),
            ReportCode::Refusal(code) => code.text(),
        }
    }
}

/// The line of a fault: its letter and number, where it stands, and what it is.
#[tactic(auto, using(std::proofs::Common::append_assoc), unfolding(crate::specs::Faults::fault_line))]
pub fn fault_line(alloc: Global, code: ReportCode, text: &[u8], at: u64) -> Mem<Vec<u8>>
    requires { at ≤ length text.now }
    ensures { IfOk result (λ line. line.items ≡ fault_line code text.now at) }
{
    let mut out = Vec::new(alloc);
    let (line, column) = place(text, at);
    push_text(&mut out, code.letter())?;
    push_number(&mut out, code.number() as u64)?;
    push_text(&mut out, " at ")?;
    push_number(&mut out, line)?;
    push_text(&mut out, ":")?;
    push_number(&mut out, column)?;
    push_text(&mut out, ": ")?;
    push_text(&mut out, code.text())?;
    push_text(&mut out, "\n")?;
    Ok(out)
}

/// What is due for a fault of a model's text, whatever the command.
pub fn say_model_fault(alloc: Global, text: &[u8], fault: &Fault) -> Mem<Said>
    requires { fault.now.at ≤ length text.now }
    ensures { IfOk result (λ s. s ≡ model_fault_due text.now fault.now) }
{
    let line = fault_line(alloc, ReportCode::Model(fault.code), text, fault.at)?;
    Ok(complaint(line, 4))
}

/// The line of a refusal: its number, the id of the line that is not accepted, and why.
#[tactic(auto, using(std::proofs::Common::append_assoc), unfolding(crate::specs::Faults::refusal_line))]
pub fn refusal_line(alloc: Global, code: ReportCode, id: u32) -> Mem<Vec<u8>>
    ensures { IfOk result (λ line. line.items ≡ refusal_line code id) }
{
    let mut out = Vec::new(alloc);
    push_text(&mut out, code.letter())?;
    push_number(&mut out, code.number() as u64)?;
    push_text(&mut out, " at id ")?;
    push_number(&mut out, id as u64)?;
    push_text(&mut out, ": ")?;
    push_text(&mut out, code.text())?;
    push_text(&mut out, "\n")?;
    Ok(out)
}
