//! The tree of an expression. A place is a byte of the text, counted from 0.
ghost use Rattle.std.specs.Prelude.{◌≡◌};
ghost use Rattle.rml_terms.specs.Tree.{name_of};

use rml_lex::Token;

/// A name: the bytes of the text from `start` up to `end`.
#[derive(Clone, Copy, Debug)]
pub struct Name {
    pub start: u64,
    pub end: u64,
}

impl Name {
    /// The name that a token is.
    pub fn of(token: &Token) -> Self
        ensures { result ≡ name_of token.now }
    {
        Name {
            start: token.start,
            end: token.end,
        }
    }
}

/// A bound name and its sort.
#[derive(Clone, Copy, Debug)]
pub struct Binder {
    pub name: Name,
    pub sort: Name,
}

#[derive(Clone, Copy, Debug)]
pub enum Quantifier {
    Forall,
    Exists,
}

/// An expression. A number is the place of its first token: parentheses around an expression do not
/// belong to it, those around its left operand do.
#[derive(Debug, Drop)]
pub enum Expr {
    True(u64),
    False(u64),
    /// A name and its arguments; there may be none.
    Apply(Name, Vec<Expr>),
    /// The condition, and the terms where it holds and where it does not.
    Ite(u64, Box<Expr>, Box<Expr>, Box<Expr>),
    /// `a ~= b` is `Not` of this, both at one place.
    Equal(u64, Box<Expr>, Box<Expr>),
    Not(u64, Box<Expr>),
    /// At least two operands.
    And(u64, Vec<Expr>),
    /// At least two operands.
    Or(u64, Vec<Expr>),
    Implies(u64, Box<Expr>, Box<Expr>),
    Iff(u64, Box<Expr>, Box<Expr>),
    /// The binders of one list are quantifiers inside one another, all at the place of the list's word.
    Quantified(Quantifier, u64, Binder, Box<Expr>),
}
