// The line that names kinds of token.
ghost use Rattle.std.specs.Prelude.{◌≡◌, ◌++◌, IfOk, codes};
ghost use Rattle.told_text.specs.Written.{Wrote};
ghost use Rattle.expectations.specs.Text.{word_text, sign_text, kind_text, lead_text, others_text, expected_text};

use base::Mem;
use rml_lex::{Kind, Sign, Word};
use std::alloc::Global;
use told_text::Text;

// How a reserved word is written.
#[tactic(auto, unfolding(crate::specs::Text::word_text))]
fn word_text(word: Word) -> &'static str
    ensures { result.now ≡ word_text word }
{
    match word {
        Word::Rml => "rml",
        Word::Sort => "sort",
        Word::Relation => "relation",
        Word::Function => "function",
        Word::Variable => "variable",
        Word::Axiom => "axiom",
        Word::Conjecture => "conjecture",
        Word::Init => "init",
        Word::Action => "action",
        Word::Final => "final",
        Word::Skip => "skip",
        Word::Abort => "abort",
        Word::Assume => "assume",
        Word::Assert => "assert",
        Word::If => "if",
        Word::Else => "else",
        Word::Choose => "choose",
        Word::Or => "or",
        Word::Insert => "insert",
        Word::Remove => "remove",
        Word::Put => "put",
        Word::Forall => "forall",
        Word::Exists => "exists",
        Word::True => "true",
        Word::False => "false",
        Word::Ite => "ite",
        Word::Define => "define",
    }
}

// How a sign is written.
#[tactic(auto, unfolding(crate::specs::Text::sign_text))]
fn sign_text(sign: Sign) -> &'static str
    ensures { result.now ≡ sign_text sign }
{
    match sign {
        Sign::DoubleArrow => "<->",
        Sign::Arrow => "->",
        Sign::Becomes => ":=",
        Sign::NotEqual => "~=",
        Sign::OpenBrace => "{",
        Sign::CloseBrace => "}",
        Sign::OpenParen => "(",
        Sign::CloseParen => ")",
        Sign::Comma => ",",
        Sign::Semicolon => ";",
        Sign::Colon => ":",
        Sign::Dot => ".",
        Sign::Equal => "=",
        Sign::Not => "~",
        Sign::And => "&",
        Sign::Or => "|",
        Sign::Star => "*",
    }
}

#[tactic(auto, using(std::proofs::Common::append_assoc))]
fn push_quoted(out: &mut Text, text: &str)
    ensures { Wrote out.old out.new (codes "`" ++ text.now ++ codes "`") }
{
    out.push_str("`");
    out.push_str(text);
    out.push_str("`");
}

#[tactic(auto, unfolding(crate::specs::Text::kind_text))]
fn push_kind(out: &mut Text, kind: Kind)
    ensures { Wrote out.old out.new (kind_text kind) }
{
    match kind {
        Kind::Name => out.push_str("NAME"),
        Kind::Number => out.push_str("NUMBER"),
        Kind::Word(word) => push_quoted(out, word_text(word)),
        Kind::Sign(sign) => push_quoted(out, sign_text(sign)),
    }
}

// Adds each with a comma in front.
#[tactic(auto, using(std::proofs::Common::append_assoc))]
fn push_others(out: &mut Text, kinds: &[Kind])
    ensures { Wrote out.old out.new (others_text kinds.now) }
{
    let mut rest = kinds;
    while let [kind, after @ ..] = rest {
        out.push_str(", ");
        push_kind(out, *kind);
        rest = after;
    }
}

// What the line begins with, if these follow the first.
fn lead_text(others: &[Kind]) -> &'static str
    ensures { result.now ≡ lead_text others.now }
{
    match others {
        [] => "  = ",
        _ => "  = one of ",
    }
}

/// The line that says which kinds may stand somewhere; of no kind it says nothing.
#[tactic(auto, using(std::proofs::Common::append_assoc), unfolding(crate::specs::Text::expected_text))]
pub fn expected_text(alloc: Global, kinds: &[Kind]) -> Mem<Vec<u8>>
    ensures { IfOk result (λ out. out.items ≡ expected_text kinds.now) }
{
    let mut out = Text::new(alloc);
    if let [first, others @ ..] = kinds {
        out.push_str(lead_text(others));
        push_kind(&mut out, *first);
        push_others(&mut out, others);
        out.push_str(" may stand here\n");
    }
    out.into_bytes()
}
