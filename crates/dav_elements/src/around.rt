ghost use Rattle.std.specs.Prelude.{◌≡◌, ◌∷◌, [], OnOk, MatchOption};

use crate::frame::Frame;
use dsv_base::NoMemory;
use std::alloc::Global;
use std::marker::Model;

/// The open elements around the innermost one, from the inside out.
#[derive(Debug, Drop)]
pub struct Around {
    frames: Vec<Frame>,
}

impl Model for Around {
    ghost use Rattle.std.specs.Prelude.{List, reverse};
    ghost use Rattle.dav_elements.specs.declared.frame.Frame.{Frame};
    ghost use Rattle.dav_elements.specs.contracts.elem.Part as part;
    ghost use Rattle.std.specs.Coded.{codes};

    ghost Value = { List Frame };

    ghost coded = { Prim.hlevel (codes, part.the_row.coded) };

    ghost view = { λ a. reverse a.frames.items };
}

impl Around {
    /// No elements.
    pub fn none(alloc: Global) -> Around
        ensures { result ≡ [] }
    {
        Around {
            frames: Vec::new(alloc),
        }
    }

    /// One more, inside the others. Its one error is want of memory.
    pub fn push(&mut self, frame: Frame) -> Result<(), NoMemory>
        ensures { OnOk result (self.new ≡ frame ∷ self.old) }
    {
        self.frames.push(frame)?;
        Ok(())
    }

    /// Takes the innermost one away.
    pub fn pop(&mut self) -> Option<Frame>
        ensures { MatchOption result (self.old ≡ []) (λ f. self.old ≡ f ∷ self.new) }
    {
        self.frames.pop()
    }
}
