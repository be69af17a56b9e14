// The model of a text, whether or not it lies in the fragment.
use base::{Mem, Refused};
use rml_command::Model;
use rml_lex::{Fault, lex};
use rml_sorts::resolve;
use rml_syntax::parse;
use std::alloc::{AllocError, Global};

/// The model of a text, or the first fault of its bytes, its grammar, or its names and sorts.
pub fn model_of(alloc: Global, text: &[u8]) -> Result<Model, Refused<Fault>> {
    let tokens = lex(alloc, text)?;
    let tree = parse(alloc, text, &tokens);
    drop(tokens);
    let tree = tree?;
    let model = resolve(alloc, text, &tree);
    drop(tree);
    model
}

/// The number of a fault and where it stands, or want of memory.
pub fn fault_of(alloc: Global, refused: Refused<Fault>) -> Mem<String> {
    match refused {
        Refused::For(fault) => {
            let (code, at) = (fault.code.number(), fault.at);
            format!(in alloc; "F{code} at byte {at}")
        }
        Refused::NoMemory => Err(AllocError),
    }
}
