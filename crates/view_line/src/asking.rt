// What the words ask for.
ghost use Rattle.std.specs.Prelude.{◌≡◌, ◌≤◌, map, string_bytes, IfOk, IfSome, option_map};
ghost use Rattle.std.specs.Str.{bytes_eq};
ghost use Rattle.command_line.specs.Asking.{IsInRange, HasRanges};
ghost use Rattle.command_line.specs.Lines.{request_line, line_of, check_line};
ghost use Rattle.view_line.specs.Options.{others, has, options_of};
ghost use Rattle.view_line.specs.Asking.{question_of, why_of, asked_of, ask_of, ask_line, question_line};
ghost use Rattle.view_line.specs.Asking.{HasQuestionRanges, HasAskRanges, is_offered, offered};

use crate::options::{Form, Options, has, is_word, options_of};
use base::Mem;
use command_line::{Asked, Bound, Request, check, read_words};
use std::alloc::Global;

/// What is asked of a model.
#[derive(Clone, Copy)]
pub enum Question<'a> {
    /// `check FILE`: whether it is inductive.
    Check(&'a str, Asked),
    /// `houdini FILE`: the greatest inductive set of its conjectures.
    Houdini(&'a str, Asked),
    /// `bmc FILE --steps K`: whether a run with at most so many actions goes wrong.
    Bmc(&'a str, Bound),
    /// `why FILE`: which conjectures carry its groups.
    Why(&'a str, Asked),
    /// `replay MODEL REPORT`: whether a report on it is right.
    Replay(&'a str, &'a str),
}

/// A command line of `ivyview`.
#[derive(Clone, Copy)]
pub enum Ask<'a> {
    Help,
    Version,
    Show(Question<'a>, Options),
}

// The question of a command line of `ivycheck`.
fn question_of<'a>(request: Option<Request<'a>>) -> Option<Question<'a>>
    requires { IfSome request HasRanges }
    ensures line { option_map question_line result ≡ question_of (option_map request_line request.entry) }
    ensures ranges { IfSome result HasQuestionRanges }
{
    match request {
        Some(Request::Check(file, asked)) => Some(Question::Check(file, asked)),
        Some(Request::Houdini(file, asked)) => Some(Question::Houdini(file, asked)),
        Some(Request::Bmc(file, bound)) => Some(Question::Bmc(file, bound)),
        Some(Request::Replay(model, report)) => Some(Question::Replay(model, report)),
        Some(Request::Lrat(_, _)) | Some(Request::Emit(_, _)) | Some(Request::Sample(_)) => None,
        None => None,
    }
}

// The question of `why`, whose words are those of `check`.
fn why_of<'a>(request: Option<Request<'a>>) -> Option<Question<'a>>
    requires { IfSome request HasRanges }
    ensures line { option_map question_line result ≡ why_of (option_map request_line request.entry) }
    ensures ranges { IfSome result HasQuestionRanges }
{
    match request {
        Some(Request::Check(file, asked)) => Some(Question::Why(file, asked)),
        _ => None,
    }
}

// The question of the words that are left.
fn read_question<'a>(alloc: Global, words: &'a [String]) -> Mem<Option<Question<'a>>>
    ensures line { IfOk result
        (λ q. option_map question_line q ≡ asked_of (map (λ w. string_bytes w) words.entry.now)) }
    ensures ranges { IfOk result (λ q. IfSome q HasQuestionRanges) }
{
    let [command, ..] = words else {
        return Ok(None);
    };
    if is_word(command, "why") {
        let request = check(alloc, words)?;
        return Ok(why_of(request));
    }
    let request = read_words(alloc, words)?;
    Ok(question_of(request))
}

// Whether the question takes these options.
fn is_offered(question: &Question, options: Options) -> bool
    ensures { result ≡ is_offered (question_line question.now) options }
{
    match question {
        Question::Check(_, _) | Question::Houdini(_, _) | Question::Bmc(_, _) => true,
        Question::Why(_, _) | Question::Replay(_, _) => !options.lean && options.form != Form::Dot,
    }
}

// The question with its options, where it takes them.
fn offered<'a>(question: Option<Question<'a>>, options: Option<Options>) -> Option<Ask<'a>>
    requires { IfSome question HasQuestionRanges }
    ensures line { option_map ask_line result ≡ offered (option_map question_line question.entry) options }
    ensures ranges { IfSome result HasAskRanges }
{
    let question = question?;
    let options = options?;
    if is_offered(&question, options) {
        Some(Ask::Show(question, options))
    } else {
        None
    }
}

/// What the words ask for, where `rest` are those without the options of `ivyview`; or nothing where they are no
/// command line.
pub fn read_ask<'a>(alloc: Global, words: &[String], rest: &'a [String]) -> Mem<Option<Ask<'a>>>
    requires { map (λ w. string_bytes w) rest.now ≡ others (map (λ w. string_bytes w) words.now) }
    ensures line { IfOk result (λ a. option_map ask_line a ≡ ask_of (map (λ w. string_bytes w) words.now)) }
    ensures ranges { IfOk result (λ a. IfSome a HasAskRanges) }
{
    if has(words, "--help") {
        return Ok(Some(Ask::Help));
    }
    if has(words, "--version") {
        return Ok(Some(Ask::Version));
    }
    let question = read_question(alloc, rest)?;
    Ok(offered(question, options_of(words)))
}
