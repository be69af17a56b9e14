//! The tree of a file. A place is a byte of the text, counted from 0.
use rml_terms::{Binder, Expr, Name};

/// The format of a file, which the number behind `rml` says; without it, the first.
#[derive(Clone, Copy, Debug, PartialEq, Eq)]
pub enum Format {
    One,
    Two,
}

/// The tree of a file: its format, and its items in order.
#[derive(Drop)]
pub struct Tree {
    pub format: Format,
    pub items: Vec<Item>,
}

/// A command. A number is the place of its word.
#[derive(Debug, Drop)]
pub enum Command {
    Skip(u64),
    Abort(u64),
    Assume(u64, Expr),
    Assert(u64, Expr),
    /// The condition, and the commands where it holds and where it does not; there may be none.
    If(u64, Expr, Vec<Command>, Vec<Command>),
    Choose(u64, Vec<Vec<Command>>),
    Insert(u64, Name, Vec<Expr>),
    Remove(u64, Name, Vec<Expr>),
    /// A function, its arguments, and their new value.
    Put(u64, Name, Vec<Expr>, Expr),
    /// A name, its parameters, and its new value; where there is none, any value.
    Assign(Name, Vec<Name>, Option<Expr>),
}

/// A declaration or a block. A number is the place of its word.
#[derive(Debug, Drop)]
pub enum Item {
    /// A name, and the names of its elements; where there are none, the sort is not listed.
    Sort(Name, Vec<Name>),
    Relation(Name, Vec<Name>),
    /// A name, the sorts of the arguments, and the sort of the value.
    Function(Name, Vec<Name>, Name),
    Variable(Name, Name),
    Axiom(Name, Expr),
    Conjecture(Name, Expr),
    Init(u64, Vec<Command>),
    Action(Name, Vec<Command>),
    Final(u64, Vec<Command>),
    /// A name, its parameters, and what it stands for.
    Define(Name, Vec<Binder>, Expr),
}
