// The text, and whether memory sufficed for it.
ghost use Rattle.std.specs.Prelude.{◌≡◌, ◌∷◌, [], IfOk, OnOk, OnErr, IsTrue, IsFalse, decimal};
ghost use Rattle.told_text.specs.Written.{Wrote, Needs};

use base::Mem;
use itoa::Buffer;
use std::alloc::{AllocError, Global};
use std::marker::Model;

/// A text that is being written. Where memory was wanting it is not whole, and stays so: then nothing is known of what
/// it has, and what is pushed is lost.
#[derive(Drop)]
pub struct Text {
    bytes: Vec<u8>,
    whole: bool,
}

impl Model for Text {
    ghost use Rattle.told_text.specs.Written.{Written};

    ghost Value = { Written };

    ghost view = { λ t. record { whole = t.whole; text = t.bytes.items } };
}

impl Text {
    /// No byte. Nothing is allocated.
    pub fn new(alloc: Global) -> Text
        ensures whole { IsTrue result.whole }
        ensures text { result.text ≡ [] }
    {
        Text {
            bytes: Vec::new(alloc),
            whole: true,
        }
    }

    /// Adds bytes behind what is there.
    pub fn push_bytes(&mut self, bytes: &[u8])
        ensures { Wrote self.old self.new bytes.now }
    {
        if self.whole {
            self.whole = self.bytes.extend_from_slice(bytes).is_ok();
        }
    }

    /// Adds a text behind what is there.
    pub fn push_str(&mut self, text: &str)
        ensures { Wrote self.old self.new text.now }
    {
        self.push_bytes(text.as_bytes());
    }

    /// Adds one byte behind what is there.
    pub fn push_byte(&mut self, byte: u8)
        ensures { Wrote self.old self.new (byte ∷ []) }
    {
        self.push_bytes(&[byte]);
    }

    /// Adds a number in decimal digits behind what is there.
    pub fn push_number(&mut self, n: u64)
        ensures { Wrote self.old self.new (decimal n) }
    {
        let mut buffer = Buffer::new();
        self.push_bytes(buffer.format(n).as_bytes());
    }

    /// Notes that memory was wanting for something that belongs to the text.
    pub fn want(&mut self)
        ensures { IsFalse self.new.whole }
    {
        self.whole = false;
    }

    /// Notes that a piece belongs to the text, whoever adds it: where the piece is not whole, the text is not.
    pub fn needs(&mut self, piece: &Text)
        ensures { Needs self.old self.new piece.now }
    {
        if !piece.whole {
            self.whole = false;
        }
    }

    /// Whether memory sufficed for all of it.
    pub fn is_whole(&self) -> bool
        ensures { result ≡ self.now.whole }
    {
        self.whole
    }

    /// What is there; the text, where it is whole.
    pub fn as_bytes(&self) -> &[u8]
        ensures { result.now ≡ self.now.text }
    {
        &self.bytes
    }

    /// The text. Err: it is not whole.
    pub fn into_bytes(self) -> Mem<Vec<u8>>
        ensures whole { OnOk result (IsTrue self.whole) }
        ensures text { IfOk result (λ text. text.items ≡ self.text) }
        ensures wanting { OnErr result (IsFalse self.whole) }
    {
        if self.whole {
            Ok(self.bytes)
        } else {
            Err(AllocError)
        }
    }
}
