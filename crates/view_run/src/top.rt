// The top call: from the words and the files to the sinks and the status.
ghost use Rattle.std.specs.Prelude.{◌≡◌, ℕ, List, map, string_bytes};
ghost use Rattle.commands.specs.Due.{passage, IsWritten};
ghost use Rattle.view_line.specs.Asking.{ask_of};
ghost use Rattle.view_run.specs.Questions.{EndsAsAsked, due_of};

use crate::ended::{Ended, Loaded};
use crate::perform::work;
use commands::finish;
use progress::Progress;
use rml_bytes::{Bytes, Files, Sink};
use std::alloc::Global;

/// Does what the words ask for, and writes what is due. How far it has come is told to `progress`, which takes no part
/// in the answer.
pub fn view<F: Files, O: Sink, E: Sink, P: Progress>(
    alloc: Global,
    words: &[String],
    files: &mut F,
    out: &mut O,
    err: &mut E,
    progress: &mut P,
) -> Ended
    // The files tell the same as before.
    ensures same { (n : List ℕ) → F.told files.new n ≡ F.told files.old n }

    // Each command line ends as the one page says that names them all.
    ensures ends { EndsAsAsked (ask_of (map (λ w. string_bytes w) words.now)) (F.told files.old) (F.faults files.old)
        (F.faults files.new) result.loaded.first result.loaded.second result.outcome }

    // All of the due text was written, or a front of it, and that only where its sink failed.
    ensures written { IsWritten
        (due_of (ask_of (map (λ w. string_bytes w) words.now)) result.loaded.first result.loaded.second result.outcome)
        result.written result.status
        (passage (O.taken out.old) (O.taken out.new) (O.faults out.old) (O.faults out.new))
        (passage (E.taken err.old) (E.taken err.new) (E.faults err.old) (E.faults err.new)) }
{
    let mut first = Vec::new(alloc);
    let mut second = Vec::new(alloc);
    let done = work(alloc, words, files, &mut first, &mut second, progress);
    progress.end();
    let finished = finish(done, out, err);
    Ended {
        status: finished.status,
        outcome: finished.outcome,
        loaded: Loaded {
            first: Bytes::from_vec(first),
            second: Bytes::from_vec(second),
        },
        written: finished.written,
    }
}
