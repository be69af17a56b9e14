// What all commands share: how files are loaded, answered and printed.
ghost use Rattle.std.specs.Prelude.{◌≡◌, ◌≤◌, ◌⊎◌, ℕ, List, [], IfOk};
ghost use Rattle.commands.specs.Due.{Due};
ghost use Rattle.commands.specs.Ends.{EndsNone, EndsOne, EndsTwo};
ghost use Rattle.rml_bytes.specs.Outside.{one_more};

use crate::said::Said;
use base::Mem;
use progress::Progress;
use rml_bytes::{Files, LoadError};
use std::alloc::Global;

/// An answer with the text that is due.
#[derive(Drop)]
pub struct Done<A> {
    pub answer: A,
    pub said: Said,
}

/// What a command makes of the texts of its files. A text that it does not load is empty.
pub trait Command {
    type Answer: Drop;

    /// An answer to these texts.
    ghost is_answer: { Self → List ℕ → List ℕ → Self.Answer → Type 0 };

    /// What is due.
    ghost due: { Self → List ℕ → List ℕ → Self.Answer → Due };

    /// The answer. How far it has come is told to `progress`.
    fn judge<P: Progress>(
        &self,
        alloc: Global,
        first: &[u8],
        second: &[u8],
        progress: &mut P,
    ) -> Mem<Self::Answer>
        ensures { IfOk result (λ a. is_answer self.now first.now second.now a) };

    fn say(&self, alloc: Global, first: &[u8], second: &[u8], answer: &Self::Answer) -> Mem<Said>
        requires { is_answer self.now first.now second.now answer.now }
        ensures { IfOk result (λ s. s ≡ due self.now first.now second.now answer.now) };
}

// The answer to the texts, with its own text.
fn answer<C: Command, P: Progress>(
    command: &C,
    alloc: Global,
    first: &[u8],
    second: &[u8],
    progress: &mut P,
) -> Mem<Done<C::Answer>>
    ensures { IfOk result (λ d. C.is_answer command.now first.now second.now d.answer
        × (d.said ≡ C.due command.now first.now second.now d.answer)) }
{
    let answer = command.judge(alloc, first, second, progress)?;
    let said = command.say(alloc, first, second, &answer)?;
    Ok(Done { answer, said })
}

/// Answers without a file.
pub fn no_file<C: Command, P: Progress>(
    command: &C,
    alloc: Global,
    progress: &mut P,
) -> Result<Done<C::Answer>, LoadError>
    ensures { EndsNone 0 0 [] [] (λ first second d. C.is_answer command.now first second d.answer
        × (d.said ≡ C.due command.now first second d.answer)) result }
{
    let done = answer(command, alloc, &[], &[], progress)?;
    Ok(done)
}

/// Loads a file, and answers its text.
pub fn one_file<C: Command, F: Files, P: Progress>(
    command: &C,
    alloc: Global,
    files: &mut F,
    name: &str,
    most: u64,
    into: &mut Vec<u8>,
    progress: &mut P,
) -> Result<Done<C::Answer>, LoadError>
    requires { into.old.items ≡ [] }
    ensures same { (n : List ℕ) → F.told files.new n ≡ F.told files.old n }
    // one file is asked for, and no other
    ensures once { F.calls files.new ≡ one_more (F.calls files.old) }
    ensures ends { EndsOne (F.told files.old name.now) most (F.faults files.old) (F.faults files.new) into.new.items []
        (λ first second d. C.is_answer command.now first second d.answer
        × (d.said ≡ C.due command.now first second d.answer)) result }
{
    files.load(name, most, into)?;
    let done = answer(command, alloc, into, &[], progress)?;
    Ok(done)
}

/// Loads both files, and answers their texts.
pub fn two_files<C: Command, F: Files, P: Progress>(
    command: &C,
    alloc: Global,
    files: &mut F,
    name: &str,
    most: u64,
    into: &mut Vec<u8>,
    other: &str,
    limit: u64,
    others: &mut Vec<u8>,
    progress: &mut P,
) -> Result<Done<C::Answer>, LoadError>
    requires first { into.old.items ≡ [] }
    requires second { others.old.items ≡ [] }
    ensures same { (n : List ℕ) → F.told files.new n ≡ F.told files.old n }
    // the first is asked for, then the second where the first was loaded
    ensures calls { (F.calls files.new ≡ one_more (F.calls files.old))
        ⊎ (F.calls files.new ≡ one_more (one_more (F.calls files.old))) }
    ensures ends { EndsTwo (F.told files.old name.now) (F.told files.old other.now) most limit (F.faults files.old)
        (F.faults files.new)
        into.new.items others.new.items (λ first second d. C.is_answer command.now first second d.answer
        × (d.said ≡ C.due command.now first second d.answer)) result }
{
    files.load(name, most, into)?;
    files.load(other, limit, others)?;
    let done = answer(command, alloc, into, others, progress)?;
    Ok(done)
}
