// The top call: from the words and the files to the sinks and the status.
ghost use Rattle.std.specs.Prelude.{◌≡◌, ℕ, List, Some, None};
ghost use Rattle.command_line.specs.Lines.{check, houdini, bmc, lrat, replay, emit, sample};
ghost use Rattle.command_line.specs.declared.request.Asked.{Asked};
ghost use Rattle.command_line.specs.declared.request.Bound.{Bound};
ghost use Rattle.command_line.specs.declared.request.Emission.{Emission};
ghost use Rattle.command_parts.specs.ModelTexts.{model_limit};
ghost use Rattle.command_parts.specs.Limits.{ceilings_of};
ghost use Rattle.model_commands.specs.Check.{IsCheckAnswer};
ghost use Rattle.clause_commands.specs.Lrat.{IsRefutation, clause_limit};
ghost use Rattle.clause_commands.specs.Emit.{IsEmitAnswer};
ghost use Rattle.model_commands.specs.Houdini.{IsHoudiniAnswer};
ghost use Rattle.model_commands.specs.Bmc.{IsBmcAnswer};
ghost use Rattle.model_commands.specs.Sample.{IsSampleAnswer};
ghost use Rattle.replay_command.specs.Replay.{IsReplayAnswer, report_limit};
ghost use Rattle.commands.specs.Due.{passage};
ghost use Rattle.ivy_run.specs.Run.{asked, course, EndsAlone, EndsOnFile, EndsOnFiles, WritesDue, IsUsage};
ghost use Rattle.ivy_run.specs.Run.{OfCheck, OfLrat, OfEmit, OfHoudini, OfBmc, OfReplay, OfSample};
ghost use Rattle.lean_decide.specs.declared.settling.Counted.TheVariants.{Whole};

use crate::ended::{Ended, Loaded};
use crate::perform::work;
use commands::finish;
use rml_bytes::{Bytes, Files, Sink};
use std::alloc::Global;

/// Does what the words ask for, and writes what is due.
pub fn run<F: Files, O: Sink, E: Sink>(
    alloc: Global,
    words: &[String],
    files: &mut F,
    out: &mut O,
    err: &mut E,
) -> Ended
    // The files tell the same as before.
    ensures same { (n : List ℕ) → F.told files.new n ≡ F.told files.old n }

    // Words that are no command line load nothing.
    ensures no_line { asked words.now ≡ None
        → EndsAlone (course (F.faults files.old) (F.faults files.new) result) IsUsage }

    // `check FILE`: the text has one model or one fault. The report on the model is made of right answers to all goals
    // under the limits that were asked for, and where its verdict is inductive, no run of the model aborts or breaks a
    // conjecture.
    ensures check { (file : List ℕ) (limits : Asked) → asked words.now ≡ Some (check file limits)
        → EndsOnFile (course (F.faults files.old) (F.faults files.new) result) (F.told files.old file) model_limit
        (λ text a. OfCheck (IsCheckAnswer Whole (ceilings_of limits) text) a) }

    // `lrat CNF LOG`: both texts have one answer, and where that is that the log refutes, no truth values satisfy the
    // formula.
    ensures lrat { (formula log : List ℕ) → asked words.now ≡ Some (lrat formula log)
        → EndsOnFiles (course (F.faults files.old) (F.faults files.new) result)
        (F.told files.old formula) clause_limit (F.told files.old log) clause_limit
        (λ text other a. OfLrat (IsRefutation text other) a) }

    // `emit FILE GOAL WHAT`: the clauses of the goal's refuting sentence, wherever it passes no limit by its size; or
    // the accepted log that refutes them, where the goal has no counterexample.
    ensures emit { (file : List ℕ) (emission : Emission) → asked words.now ≡ Some (emit file emission)
        → EndsOnFile (course (F.faults files.old) (F.faults files.new) result) (F.told files.old file) model_limit
        (λ text a. OfEmit (IsEmitAnswer emission text) a) }

    // `houdini FILE`: the conjectures of the text's one model are dropped one by one, each by an execution that
    // breaks it from a structure that satisfies those held at that time. Every set of conjectures that is inductive
    // apart from aborts is within those that are kept, and where no goal was left open, they are such a set
    // themselves.
    ensures houdini { (file : List ℕ) (limits : Asked) → asked words.now ≡ Some (houdini file limits)
        → EndsOnFile (course (F.faults files.old) (F.faults files.new) result) (F.told files.old file) model_limit
        (λ text a. OfHoudini (IsHoudiniAnswer Whole (ceilings_of limits) text) a) }

    // `bmc FILE --steps K`: the lengths 0, 1, .. of the runs of the text's one model are answered in order, up to K or
    // to the first that is broken. Where the verdict is safe, no run with at most K actions aborts or breaks a
    // conjecture. A length that is broken shows one whole run that does so at its last part. A length is left open
    // exactly where it has more than 4,096 walks to be looked at, or by its first goal that passes a limit where none
    // is found to have a run.
    ensures bmc { (file : List ℕ) (bound : Bound) → asked words.now ≡ Some (bmc file bound)
        → EndsOnFile (course (F.faults files.old) (F.faults files.new) result) (F.told files.old file) model_limit
        (λ text a. OfBmc (IsBmcAnswer Whole bound text) a) }

    // `replay MODEL REPORT`: of the model that the first text has, the second is no printed report, and the first
    // line is named that none has there; or it says one thing, and this is judged by truth and by following its
    // executions. It is confirmed exactly where each execution that it shows is a counterexample of its goal and ends
    // as is printed, and the verdict is that of its groups; else the least line is named that says what is not so.
    ensures replay { (model report : List ℕ) → asked words.now ≡ Some (replay model report)
        → EndsOnFiles (course (F.faults files.old) (F.faults files.new) result)
        (F.told files.old model) model_limit (F.told files.old report) report_limit
        (λ text other a. OfReplay (IsReplayAnswer text other) a) }

    // `sample N`: the report on the model of the sample text, under the limits of a `check` without options.
    ensures sample { (n : ℕ) → asked words.now ≡ Some (sample n)
        → EndsAlone (course (F.faults files.old) (F.faults files.new) result) (λ a. OfSample (IsSampleAnswer n) a) }

    // All of the due text was written, or a front of it, and that only where its sink failed.
    ensures written { WritesDue (asked words.now) result
        (passage (O.taken out.old) (O.taken out.new) (O.faults out.old) (O.faults out.new))
        (passage (E.taken err.old) (E.taken err.new) (E.faults err.old) (E.faults err.new)) }
{
    let mut first = Vec::new(alloc);
    let mut second = Vec::new(alloc);
    let done = work(alloc, words, files, &mut first, &mut second);
    let finished = finish(done, out, err);
    Ended {
        status: finished.status,
        outcome: finished.outcome,
        loaded: Loaded {
            first: Bytes::from_vec(first),
            second: Bytes::from_vec(second),
        },
        written: finished.written,
    }
}
