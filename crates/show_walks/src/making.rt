// Models that are made by chance: one of eight forms for each condition, command and conjecture.
use base::Mem;
use std::alloc::Global;

/// A linear congruential generator (Knuth's MMIX), of whose states the upper bits are taken.
#[derive(Clone, Copy)]
pub struct Chance {
    /// The state.
    pub state: u64,
}

impl Chance {
    // A number below eight.
    fn next(&mut self) -> u64 {
        self.state = self
            .state
            .wrapping_mul(6364136223846793005)
            .wrapping_add(1442695040888963407);
        (self.state >> 40) % 8
    }
}

const DECLARED: &str =
    "sort a\nrelation p(a)\nrelation q(a, a)\nrelation flag\nvariable x : a\nvariable y : a\n";

fn axiom(number: u64) -> &'static str {
    match number {
        0 => "axiom apart: exists X:a, Y:a. X ~= Y\n",
        1 => "axiom loops: forall X:a. ~q(X, X)\n",
        2 => "axiom flagged: flag -> p(x)\n",
        _ => "",
    }
}

fn condition(number: u64) -> &'static str {
    match number {
        0 => "p(x)",
        1 => "~p(y)",
        2 => "q(x, y)",
        3 => "x ~= y",
        4 => "forall X:a. p(X) -> q(X, x)",
        5 => "exists X:a. q(X, y) & ~p(X)",
        6 => "flag",
        _ => "~flag & p(y)",
    }
}

fn command(number: u64) -> &'static str {
    match number {
        0 => "x := *; y := *",
        1 => "insert p(x)",
        2 => "remove p(y)",
        3 => "q(X, Y) := p(X) & X ~= Y",
        4 => "flag := p(x)",
        5 => "insert q(x, y)",
        6 => "p(X) := ~q(X, x)",
        _ => "y := *; x := y",
    }
}

fn conjecture(number: u64) -> &'static str {
    match number {
        0 => "forall X:a. ~p(X) | ~q(X, X)",
        1 => "forall X:a, Y:a. q(X, Y) -> p(X)",
        2 => "forall X:a. flag -> p(X)",
        3 => "~flag",
        4 => "forall X:a, Y:a. p(X) & p(Y) -> X = Y",
        5 => "forall X:a, Y:a, Z:a. q(X, Y) & q(Y, Z) -> q(X, Z)",
        6 => "p(x) -> flag",
        _ => "forall X:a. ~q(X, y)",
    }
}

// The word behind which a condition stands, where it stands in a block.
fn asking(number: u64) -> &'static str {
    if number == 0 { "assert " } else { "assume " }
}

// A condition that is asked for, and two commands.
fn push_block(text: &mut String, chance: &mut Chance) -> Mem<()> {
    text.push_str("{ ")?;
    text.push_str(asking(chance.next()))?;
    text.push_str(condition(chance.next()))?;
    text.push_str("; ")?;
    text.push_str(command(chance.next()))?;
    text.push_str("; ")?;
    text.push_str(command(chance.next()))?;
    text.push_str(" }\n")
}

fn push_conjecture(text: &mut String, name: &str, chance: &mut Chance) -> Mem<()> {
    text.push_str("conjecture ")?;
    text.push_str(name)?;
    text.push_str(": ")?;
    text.push_str(conjecture(chance.next()))?;
    text.push('\n')
}

// The blocks: an init that empties the relations, two actions of which one has two paths, and sometimes a final.
fn push_blocks(text: &mut String, chance: &mut Chance) -> Mem<()> {
    text.push_str("init { flag := false; p(X) := false; q(X, Y) := false; ")?;
    text.push_str(command(chance.next()))?;
    text.push_str(" }\naction one ")?;
    push_block(text, chance)?;
    text.push_str("action two { choose ")?;
    push_block(text, chance)?;
    text.push_str("or ")?;
    push_block(text, chance)?;
    text.push_str("}\n")?;
    if chance.next() == 0 {
        text.push_str("final ")?;
        push_block(text, chance)?;
    }
    Ok(())
}

/// The text of the next model.
pub fn model_text(alloc: Global, chance: &mut Chance) -> Mem<String> {
    let mut text = String::from_str(alloc, DECLARED)?;
    text.push_str(axiom(chance.next()))?;
    push_blocks(&mut text, chance)?;
    push_conjecture(&mut text, "c0", chance)?;
    push_conjecture(&mut text, "c1", chance)?;
    Ok(text)
}
