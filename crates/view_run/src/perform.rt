// From the words to the answer with its text.
ghost use Rattle.std.specs.Prelude.{◌≡◌, ℕ, List, [], Option, Some, IfSome, option_map, map, string_bytes};
ghost use Rattle.commands.specs.Ends.{EndsNone, EndsOne, EndsTwo};
ghost use Rattle.commands.specs.Done.{due_in, outcome_in};
ghost use Rattle.command_parts.specs.ModelTexts.{model_limit};
ghost use Rattle.replay_command.specs.Replay.{IsReplayAnswer, report_limit};
ghost use Rattle.view_line.specs.Asking.{AskLine, show, ask_of, ask_line, question_line, HasAskRanges};
ghost use Rattle.view_line.specs.Asking.{HasQuestionRanges};
ghost use Rattle.view_run.specs.Views.{IsViewed};
ghost use Rattle.view_run.specs.Inquiries.{IsAnswerTo, EndsAsShown, done_as};
ghost use Rattle.view_run.specs.Questions.{EndsAsAsked, IsWords, OfReplay, counted_by, due_of, view_due, words_of};

use crate::ended::Answer;
use crate::inquiry::Inquiry;
use crate::question::View;
use crate::showing::Showing;
use crate::viewed::Viewed;
use crate::why::Why;
use crate::words::{Words, words_said};
use commands::{Done, one_file, two_files};
use lean_decide::Counted;
use model_commands::{Bmc, Check, Houdini};
use progress::Progress;
use rml_bytes::{Files, LoadError};
use std::alloc::Global;
use view_line::{Ask, Form, Options, Question, other_words, read_ask};

const MODEL_LIMIT: u64 = 1048576;

// Of a report.
const LONG_LIMIT: u64 = 268435456;

// On which counts limits are.
fn counted_by(options: Options) -> Counted
    ensures { result ≡ counted_by options }
{
    if options.lean {
        Counted::Lean
    } else {
        Counted::Whole
    }
}

// Answers with words alone.
fn say_words(alloc: Global, words: Words) -> Result<Done<Answer>, LoadError>
    ensures due { (ask : Option AskLine) → words_of ask ≡ words → due_in result ≡ due_of ask [] [] (outcome_in result) }
    ensures ends { EndsNone 0 0 [] [] (λ text other a. IsWords a) (outcome_in result) }
{
    let said = words_said(alloc, words)?;
    Ok(Done {
        answer: Answer::Words,
        said,
    })
}

// Asks a question of the text of one file.
fn ask_one<F: Files, P: Progress>(
    alloc: Global,
    file: &str,
    inquiry: Inquiry,
    form: Form,
    files: &mut F,
    first: &mut Vec<u8>,
    progress: &mut P,
) -> Result<Done<Viewed>, LoadError>
    requires { first.old.items ≡ [] }
    ensures same { (n : List ℕ) → F.told files.new n ≡ F.told files.old n }
    ensures ends { EndsOne (F.told files.old file.now) model_limit (F.faults files.old) (F.faults files.new)
        first.new.items [] (λ text other d. IsViewed (IsAnswerTo inquiry text other) text d.answer
        × (d.said ≡ view_due form file.now [] text d.answer)) result }
{
    let view = View {
        inquiry,
        showing: Showing { form, file },
        report: "",
    };
    one_file(&view, alloc, files, file, MODEL_LIMIT, first, progress)
}

// Asks whether the report of a second file is right.
fn ask_two<F: Files, P: Progress>(
    alloc: Global,
    model: &str,
    report: &str,
    form: Form,
    files: &mut F,
    first: &mut Vec<u8>,
    second: &mut Vec<u8>,
    progress: &mut P,
) -> Result<Done<Viewed>, LoadError>
    requires first { first.old.items ≡ [] }
    requires second { second.old.items ≡ [] }
    ensures same { (n : List ℕ) → F.told files.new n ≡ F.told files.old n }
    ensures ends { EndsTwo (F.told files.old model.now) (F.told files.old report.now) model_limit report_limit
        (F.faults files.old) (F.faults files.new) first.new.items second.new.items
        (λ text other d. IsViewed (OfReplay (IsReplayAnswer text other)) text d.answer
        × (d.said ≡ view_due form model.now report.now text d.answer)) result }
{
    let view = View {
        inquiry: Inquiry::Replay,
        showing: Showing { form, file: model },
        report,
    };
    two_files(
        &view,
        alloc,
        files,
        model,
        MODEL_LIMIT,
        first,
        report,
        LONG_LIMIT,
        second,
        progress,
    )
}

// Answers a question, with limits on these counts.
fn show_question<F: Files, P: Progress>(
    alloc: Global,
    question: Question,
    counted: Counted,
    form: Form,
    files: &mut F,
    first: &mut Vec<u8>,
    second: &mut Vec<u8>,
    progress: &mut P,
) -> Result<Done<Viewed>, LoadError>
    requires ranges { HasQuestionRanges question }
    requires first { first.old.items ≡ [] }
    requires second { second.old.items ≡ [] }
    ensures same { (n : List ℕ) → F.told files.new n ≡ F.told files.old n }
    ensures ends { EndsAsShown (question_line question.entry) counted form (F.told files.old) (F.faults files.old)
        (F.faults files.new) first.new.items second.new.items result }
{
    match question {
        Question::Check(file, asked) => {
            let check = Inquiry::Check(Check { asked, counted });
            ask_one(alloc, file, check, form, files, first, progress)
        }
        Question::Houdini(file, asked) => {
            let houdini = Inquiry::Houdini(Houdini { asked, counted });
            ask_one(alloc, file, houdini, form, files, first, progress)
        }
        Question::Bmc(file, bound) => {
            let bmc = Inquiry::Bmc(Bmc { bound, counted });
            ask_one(alloc, file, bmc, form, files, first, progress)
        }
        Question::Why(file, asked) => {
            let why = Inquiry::Why(Why { asked });
            ask_one(alloc, file, why, form, files, first, progress)
        }
        Question::Replay(model, report) => ask_two(
            alloc, model, report, form, files, first, second, progress,
        ),
    }
}

// The answer to a question as one of all.
fn as_answer(done: Result<Done<Viewed>, LoadError>) -> Result<Done<Answer>, LoadError>
    ensures { result ≡ done_as done }
{
    match done {
        Ok(done) => Ok(Done {
            answer: Answer::Viewed(done.answer),
            said: done.said,
        }),
        Err(why) => Err(why),
    }
}

// Answers a question, as these options ask.
fn show_asked<F: Files, P: Progress>(
    alloc: Global,
    question: Question,
    options: Options,
    files: &mut F,
    first: &mut Vec<u8>,
    second: &mut Vec<u8>,
    progress: &mut P,
) -> Result<Done<Answer>, LoadError>
    requires ranges { HasQuestionRanges question }
    requires first { first.old.items ≡ [] }
    requires second { second.old.items ≡ [] }
    ensures same { (n : List ℕ) → F.told files.new n ≡ F.told files.old n }
    ensures due { due_in result ≡ due_of (Some (show (question_line question.entry) options)) first.new.items
        second.new.items (outcome_in result) }
    ensures ends { EndsAsAsked (Some (show (question_line question.entry) options)) (F.told files.old)
        (F.faults files.old) (F.faults files.new) first.new.items second.new.items (outcome_in result) }
{
    let counted = counted_by(options);
    let form = options.form;
    as_answer(show_question(
        alloc, question, counted, form, files, first, second, progress,
    ))
}

// Does what a command line asks for.
fn perform<F: Files, P: Progress>(
    alloc: Global,
    ask: Option<Ask>,
    files: &mut F,
    first: &mut Vec<u8>,
    second: &mut Vec<u8>,
    progress: &mut P,
) -> Result<Done<Answer>, LoadError>
    requires ranges { IfSome ask HasAskRanges }
    requires first { first.old.items ≡ [] }
    requires second { second.old.items ≡ [] }
    ensures same { (n : List ℕ) → F.told files.new n ≡ F.told files.old n }
    ensures due { due_in result ≡ due_of (option_map ask_line ask.entry) first.new.items second.new.items
        (outcome_in result) }
    ensures ends { EndsAsAsked (option_map ask_line ask.entry) (F.told files.old) (F.faults files.old)
        (F.faults files.new)
        first.new.items second.new.items (outcome_in result) }
{
    match ask {
        Some(Ask::Help) => say_words(alloc, Words::Help),
        Some(Ask::Version) => say_words(alloc, Words::Version),
        Some(Ask::Show(question, options)) => show_asked(
            alloc, question, options, files, first, second, progress,
        ),
        None => say_words(alloc, Words::Usage),
    }
}

/// Reads the words, and does what they ask for.
pub fn work<F: Files, P: Progress>(
    alloc: Global,
    words: &[String],
    files: &mut F,
    first: &mut Vec<u8>,
    second: &mut Vec<u8>,
    progress: &mut P,
) -> Result<Done<Answer>, LoadError>
    requires first { first.old.items ≡ [] }
    requires second { second.old.items ≡ [] }
    ensures same { (n : List ℕ) → F.told files.new n ≡ F.told files.old n }
    ensures due { due_in result ≡ due_of (ask_of (map (λ w. string_bytes w) words.now)) first.new.items
        second.new.items (outcome_in result) }
    ensures ends { EndsAsAsked (ask_of (map (λ w. string_bytes w) words.now)) (F.told files.old) (F.faults files.old)
        (F.faults files.new) first.new.items second.new.items (outcome_in result) }
{
    let Ok(rest) = other_words(alloc, words) else {
        return Err(LoadError::NoMemory);
    };
    match read_ask(alloc, words, &rest) {
        Err(_) => Err(LoadError::NoMemory),
        Ok(ask) => perform(alloc, ask, files, first, second, progress),
    }
}
