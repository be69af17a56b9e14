// What is due is handed over.
ghost use Rattle.std.specs.Prelude.{◌≡◌, ◌⊎◌};
ghost use Rattle.commands.specs.Due.{passage, Hands, IsWrittenTo, IsWritten, status_of, stop_due};
ghost use Rattle.commands.specs.Done.{due_in, outcome_in};
ghost use Rattle.rml_bytes.specs.Outside.{one_more};

use crate::command::Done;
use crate::side::{Side, Written};
use rml_bytes::{LoadError, Sink};

// Hands over all of a text, where there is any.
fn deliver<S: Sink>(sink: &mut S, text: &[u8]) -> Written
    ensures once { (S.calls sink.new ≡ S.calls sink.old) ⊎ (S.calls sink.new ≡ one_more (S.calls sink.old)) }
    ensures hands { Hands result (passage (S.taken sink.old) (S.taken sink.new) (S.faults sink.old) (S.faults sink.new))
        text.now }
{
    if text.is_empty() {
        return Written::All;
    }
    match sink.put(text) {
        Ok(()) => Written::All,
        Err(_) => Written::Failed,
    }
}

fn write<O: Sink, E: Sink>(side: Side, text: &[u8], out: &mut O, err: &mut E) -> Written
    ensures { IsWrittenTo side text.now result
        (passage (O.taken out.old) (O.taken out.new) (O.faults out.old) (O.faults out.new))
        (passage (E.taken err.old) (E.taken err.new) (E.faults err.old) (E.faults err.new)) }
{
    match side {
        Side::Out => deliver(out, text),
        Side::Err => deliver(err, text),
    }
}

fn status_after(written: Written, status: u8) -> u8
    ensures { result ≡ status_of written status }
{
    match written {
        Written::All => status,
        Written::Failed => 5,
    }
}

fn stop_text(why: LoadError) -> &'static str
    ensures { result.now ≡ (stop_due why).text }
{
    match why {
        LoadError::TooLong => "the file is too long\n",
        LoadError::Failed => "cannot read the file\n",
        LoadError::NoMemory => "no memory\n",
    }
}

fn stop_status(why: LoadError) -> u8
    ensures { result ≡ (stop_due why).status }
{
    match why {
        LoadError::TooLong => 4,
        LoadError::Failed => 5,
        LoadError::NoMemory => 7,
    }
}

/// The outcome, with what became of its text and the status.
#[derive(Drop)]
pub struct Finished<A> {
    pub outcome: Result<A, LoadError>,
    pub written: Written,
    pub status: u8,
}

/// Writes what is due.
pub fn finish<A: Drop, O: Sink, E: Sink>(
    done: Result<Done<A>, LoadError>,
    out: &mut O,
    err: &mut E,
) -> Finished<A>
    ensures outcome { result.outcome ≡ outcome_in done }
    ensures written { IsWritten (due_in done) result.written result.status
        (passage (O.taken out.old) (O.taken out.new) (O.faults out.old) (O.faults out.new))
        (passage (E.taken err.old) (E.taken err.new) (E.faults err.old) (E.faults err.new)) }
{
    match done {
        Ok(done) => {
            let written = write(done.said.side, &done.said.text, out, err);
            Finished {
                outcome: Ok(done.answer),
                written,
                status: status_after(written, done.said.status),
            }
        }
        Err(why) => {
            let written = write(Side::Err, stop_text(why).as_bytes(), out, err);
            Finished {
                outcome: Err(why),
                written,
                status: status_after(written, stop_status(why)),
            }
        }
    }
}
