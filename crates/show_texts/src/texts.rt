// The tokens and the tree of a model's text, or its first fault.
use base::{Mem, Refused};
use call_files::Call;
use rml_lex::{Fault, Token, lex, place};
use rml_syntax::{Tree, parse};
use std::alloc::{AllocError, Global};

// The number of a fault and where it stands, or want of memory.
fn fault_of(alloc: Global, text: &[u8], refused: Refused<Fault>) -> Mem<String> {
    let Refused::For(fault) = refused else {
        return Err(AllocError);
    };
    let (code, at) = (fault.code.number(), fault.at);
    if at > text.len() as u64 {
        return String::from_str(alloc, "a fault behind the text");
    }
    let (line, column) = place(text, at);
    format!(in alloc; "F{code} at byte {at}, line {line}, column {column}")
}

fn listed(alloc: Global, tokens: &[Token]) -> Mem<String> {
    let count = tokens.len();
    let mut list = format!(in alloc; "{count} tokens")?;
    for token in tokens {
        let Token { kind, start, end } = *token;
        list.push_str(format!(in alloc; ", {kind:?} {start}..{end}")?.as_str())?;
    }
    Ok(list)
}

/// The tokens of a text, each with its place.
pub struct Tokens;

impl Call for Tokens {
    fn answer(alloc: Global, input: &str) -> Mem<String> {
        let text = input.as_bytes();
        match lex(alloc, text) {
            Ok(tokens) => listed(alloc, &tokens),
            Err(refused) => fault_of(alloc, text, refused),
        }
    }
}

fn read_tree(alloc: Global, text: &[u8]) -> Result<Tree, Refused<Fault>> {
    let tokens = lex(alloc, text)?;
    parse(alloc, text, &tokens)
}

/// Whether a text has a tree, with the number of its items.
pub struct Grammar;

impl Call for Grammar {
    fn answer(alloc: Global, input: &str) -> Mem<String> {
        let text = input.as_bytes();
        match read_tree(alloc, text) {
            Ok(tree) => {
                let count = tree.items.len();
                format!(in alloc; "a tree of {count} items")
            }
            Err(refused) => fault_of(alloc, text, refused),
        }
    }
}

/// The items of a text's tree, each node with its place.
pub struct Trees;

impl Call for Trees {
    fn answer(alloc: Global, input: &str) -> Mem<String> {
        let text = input.as_bytes();
        match read_tree(alloc, text) {
            Ok(tree) => format!(in alloc; "{:?}", tree.items),
            Err(refused) => fault_of(alloc, text, refused),
        }
    }
}
