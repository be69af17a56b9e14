// The open nodes.
ghost use Rattle.std.specs.Prelude.{◌≡◌, List, [], ◌∷◌, drop, slice_get, OnOk, OnErr};

use crate::frame::Frame;
use base::Mem;
use std::alloc::Global;
use std::marker::Model;

/// The open nodes. It is seen with the innermost first.
#[derive(Drop)]
pub struct Stack {
    frames: Vec<Frame>,
}

impl Model for Stack {
    ghost use Rattle.std.specs.Prelude.{List, reverse};
    ghost use Rattle.clause_form.specs.declared.frame.Frame.{Frame};

    ghost Value = { List Frame };

    ghost view = { λ s. reverse s.frames.items };
}

impl Stack {
    pub fn new(alloc: Global) -> Stack
        ensures { result ≡ [] }
    {
        Stack {
            frames: Vec::new(alloc),
        }
    }

    /// The stack is as before where the memory is wanting.
    pub fn push(&mut self, frame: Frame) -> Mem<()>
        ensures pushed { OnOk result (self.new ≡ frame ∷ self.old) }
        ensures kept { OnErr result (self.new ≡ self.old) }
    {
        self.frames.push(frame)?;
        Ok(())
    }

    /// The innermost node.
    pub fn first(&self) -> Option<Frame>
        ensures { result ≡ slice_get self.now 0 }
    {
        let n = self.frames.len();
        if n == 0 {
            None
        } else {
            Some(self.frames[n - 1])
        }
    }

    pub fn pop(&mut self)
        ensures { self.new ≡ drop 1 self.old }
    {
        self.frames.pop();
    }
}
