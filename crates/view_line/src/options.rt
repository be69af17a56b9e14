// The options of `ivyview` alone, anywhere among the words.
ghost use Rattle.std.specs.Prelude.{◌≡◌, ◌++◌, map, string_bytes, IfOk};
ghost use Rattle.std.specs.Str.{bytes_eq};
ghost use Rattle.view_line.specs.Options.{is_own, others, has, form_by, options_of};

use base::Mem;
use std::alloc::Global;

/// How an outcome is shown.
#[derive(Clone, Copy, PartialEq, Eq)]
pub enum Form {
    /// As a person reads it.
    Told,
    /// As pictures, for Graphviz.
    Dot,
    /// As one JSON value.
    Json,
}

/// What is asked for beside the question.
#[derive(Clone, Copy)]
pub struct Options {
    /// Limits are on lean counts.
    pub lean: bool,
    pub form: Form,
}

/// Whether this is the word.
pub fn is_word(word: &str, other: &str) -> bool
    ensures { result ≡ bytes_eq word.now other.now }
{
    word.as_bytes() == other.as_bytes()
}

// Whether a word is an option of `ivyview` alone.
fn is_own(word: &str) -> bool
    ensures { result ≡ is_own word.now }
{
    is_word(word, "--lean") || is_word(word, "--dot") || is_word(word, "--json")
}

/// The words without these options.
#[tactic(auto, using(std::proofs::Common::append_assoc))]
pub fn other_words(alloc: Global, words: &[String]) -> Mem<Vec<String>>
    ensures { IfOk result
        (λ rest. map (λ w. string_bytes w) rest.items ≡ others (map (λ w. string_bytes w) words.now)) }
{
    let mut kept = Vec::new(alloc);
    let mut rest = words;
    while let [word, after @ ..] = rest {
        if !is_own(word) {
            kept.push(word.clone()?)?;
        }
        rest = after;
    }
    Ok(kept)
}

/// Whether one of the words is this one.
pub fn has(words: &[String], option: &str) -> bool
    ensures { result ≡ has option.now (map (λ w. string_bytes w) words.now) }
{
    let mut rest = words;
    while let [word, after @ ..] = rest {
        if is_word(word, option) {
            return true;
        }
        rest = after;
    }
    false
}

// The form, by which of the two options stand there.
fn form_by(dot: bool, json: bool) -> Option<Form>
    ensures { result ≡ form_by dot json }
{
    match (dot, json) {
        (false, false) => Some(Form::Told),
        (true, false) => Some(Form::Dot),
        (false, true) => Some(Form::Json),
        (true, true) => None,
    }
}

/// The options among the words; none where both `--dot` and `--json` stand there.
pub fn options_of(words: &[String]) -> Option<Options>
    ensures { result ≡ options_of (map (λ w. string_bytes w) words.now) }
{
    let form = form_by(has(words, "--dot"), has(words, "--json"))?;
    let lean = has(words, "--lean");
    Some(Options { lean, form })
}
