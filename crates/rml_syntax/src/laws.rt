// What follows from the definitions alone. Each function is its contract, and does nothing.
ghost use Rattle.std.specs.Prelude.{◌≡◌, ◌≤◌, ◌⊎◌, ◌++◌, ℕ, List};
ghost use Rattle.rml_lex.specs.declared.token.Token.{Token};
ghost use Rattle.rml_lex.specs.declared.token.Fault.{Fault};
ghost use Rattle.rml_syntax.specs.Tree.{FileTree};
ghost use Rattle.rml_lex.specs.Tokens.{AreTokens};
ghost use Rattle.rml_syntax.specs.Faults.{IsTree, IsFault};
ghost use Rattle.rml_phrases.specs.Ascending.{AscendBetween, Ascend};
ghost use Rattle.rml_syntax.specs.Places.{places_of_items};

/// A list of tokens has one tree or one first fault, and never both.
pub fn one_tree_or_fault()
    ensures some { (text : List ℕ) (ts : List Token)
        → ((tree : FileTree) × IsTree text ts tree) ⊎ ((fault : Fault) × IsFault text ts fault) }
    ensures tree { (text : List ℕ) (ts : List Token) (a b : FileTree)
        → IsTree text ts a → IsTree text ts b → a ≡ b }
    ensures fault { (text : List ℕ) (ts : List Token) (f g : Fault)
        → IsFault text ts f → IsFault text ts g → f ≡ g }
    ensures not_both { (text : List ℕ) (ts : List Token) (tree : FileTree) (f : Fault)
        → IsTree text ts tree → IsFault text ts f → ⊥ }
{
    rml_terms::terms_are_read();
}

/// In the tree of a text no name and no node begins before the one in front of it.
pub fn places_ascend()
    ensures { (text : List ℕ) (ts : List Token) (tree : FileTree)
        → AreTokens text ts → IsTree text ts tree → Ascend (places_of_items tree.items) }
{
    rml_terms::terms_ascend();
}

/// Ascending places, seen from an earlier one and taken apart.
pub fn ascending()
    ensures bounds { (lo hi : ℕ) (places : List ℕ) → AscendBetween lo hi places → lo ≤ hi }
    ensures earlier { (from lo hi : ℕ) (places : List ℕ)
        → from ≤ lo → AscendBetween lo hi places → AscendBetween from hi places }
    ensures parts { (lo hi : ℕ) (front back : List ℕ) → AscendBetween lo hi (front ++ back)
        → (mid : ℕ) × AscendBetween lo mid front × AscendBetween mid hi back }
{}
