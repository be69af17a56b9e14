// Numbered pieces of the text.
ghost use Rattle.std.specs.Prelude.{◌≡◌, ◌≤◌, ◌<◌, ◌+◌, ◌++◌, OnOk};
ghost use Rattle.rml_sample.specs.Sample.{IsThere, piece_text, pieces_text, numbered, action_text, conjecture_text};

use base::{Mem, push_number, push_text};

/// What stands once for each number.
#[derive(Clone, Copy, Debug)]
pub enum Piece {
    /// A relation is declared.
    Relation,
    /// A relation starts empty.
    Start,
    /// An element goes over from the relation before.
    Action,
    /// A relation is contained in the one before.
    Conjecture,
}

// A number between two words.
#[tactic(auto, using(std::proofs::Common::append_assoc), unfolding(crate::specs::Sample::numbered))]
fn push_numbered(out: &mut Vec<u8>, before: &str, n: u64, behind: &str) -> Mem<()>
    ensures { OnOk result (out.new.items ≡ out.old.items ++ numbered before.now n behind.now) }
{
    push_text(out, before)?;
    push_number(out, n)?;
    push_text(out, behind)?;
    Ok(())
}

#[tactic(auto, using(std::proofs::Common::append_assoc), unfolding(crate::specs::Sample::action_text))]
fn push_action(out: &mut Vec<u8>, i: u64) -> Mem<()>
    requires { 1 ≤ i }
    ensures { OnOk result (out.new.items ≡ out.old.items ++ action_text i) }
{
    push_numbered(out, "action a", i, " { v := *; assume r")?;
    push_numbered(out, "", i - 1, "(v); insert r")?;
    push_numbered(out, "", i, "(v) }\n")?;
    Ok(())
}

#[tactic(auto, using(std::proofs::Common::append_assoc), unfolding(crate::specs::Sample::conjecture_text))]
fn push_conjecture(out: &mut Vec<u8>, i: u64) -> Mem<()>
    requires { 1 ≤ i }
    ensures { OnOk result (out.new.items ≡ out.old.items ++ conjecture_text i) }
{
    push_numbered(out, "conjecture c", i, ": forall x:node. r")?;
    push_numbered(out, "", i, "(x) -> r")?;
    push_numbered(out, "", i - 1, "(x)\n")?;
    Ok(())
}

fn push_piece(out: &mut Vec<u8>, piece: Piece, i: u64) -> Mem<()>
    requires { IsThere piece i }
    ensures { OnOk result (out.new.items ≡ out.old.items ++ piece_text piece i) }
{
    match piece {
        Piece::Relation => push_numbered(out, "relation r", i, "(node)\n"),
        Piece::Start => push_numbered(out, "; r", i, "(x) := false"),
        Piece::Action => push_action(out, i),
        Piece::Conjecture => push_conjecture(out, i),
    }
}

/// So many pieces, numbered from this number on.
pub fn push_pieces(out: &mut Vec<u8>, piece: Piece, from: u64, count: u64) -> Mem<()>
    requires there { IsThere piece from }
    requires few { (from ≤ 1) × (count ≤ 1000001) }
    ensures { OnOk result (out.new.items ≡ out.old.items ++ pieces_text piece from count) }
{
    for i in from..from + count {
        push_piece(out, piece, i)?;
    }
    Ok(())
}
