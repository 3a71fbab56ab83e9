ghost use Rattle.std.specs.Prelude.{◌≡◌, IfOk, MatchResult, take, drop};

use crate::no_memory::NoMemory;
use std::alloc::{AllocFailed, Global};
use std::marker::Model;
use std::sync::Arc;

/// A part of a `Vec` that several hold together. Contracts see its bytes as a list of numbers.
#[derive(Debug, Drop)]
pub struct Part {
    whole: Arc<Vec<u8>>,
    start: usize,
    end: usize,
}

impl Model for Part {
    ghost use Rattle.std.specs.Prelude.{List, ℕ, ◌≤◌, length, slice_range};
    ghost use Rattle.std.specs.Arc.{arc_value};

    ghost Value = { List ℕ };

    ghost view = { λ p. slice_range (arc_value p.whole).items p.start p.end };

    ghost invariant = { λ p. (p.start ≤ p.end) × (p.end ≤ length (arc_value p.whole).items) };
}

impl Part {
    /// All bytes of a `Vec`, which comes back for want of memory.
    #[tactic(auto, using(crate::proofs::Ranges::range_all))]
    pub fn of(bytes: Vec<u8>) -> Result<Part, Vec<u8>>
        ensures { MatchResult result (λ part. part ≡ bytes.items) (λ back. back.items ≡ bytes.items) }
    {
        let end = bytes.len();
        let alloc = *bytes.allocator();
        match Arc::new(alloc, bytes) {
            Ok(whole) => Ok(Part {
                whole,
                start: 0,
                end,
            }),
            Err(AllocFailed { value }) => Err(value),
        }
    }

    /// Its bytes, to be read.
    pub fn get(&self) -> &[u8]
        ensures { result.now ≡ self.now }
    {
        let whole: &Vec<u8> = &self.whole;
        &whole.as_slice()[self.start..self.end]
    }

    /// The allocator of its bytes.
    pub fn allocator(&self) -> Global {
        let whole: &Vec<u8> = &self.whole;
        *whole.allocator()
    }

    /// The same part once more. No byte is copied.
    pub fn share(&self) -> Result<Part, NoMemory>
        ensures { IfOk result (λ part. part ≡ self.now) }
    {
        let whole = Arc::try_clone(&self.whole)?;
        Ok(Part {
            whole,
            start: self.start,
            end: self.end,
        })
    }

    /// What stands behind its first bytes, of which there are so many.
    #[tactic(auto, using(crate::proofs::Ranges::range_after, crate::proofs::Ranges::range_gone))]
    pub fn after(self, count: usize) -> Part
        ensures { result ≡ drop count self }
    {
        let Part { whole, start, end } = self;
        if count > end - start {
            return Part {
                whole,
                start: end,
                end,
            };
        }
        Part {
            whole,
            start: start + count,
            end,
        }
    }

    /// Its first bytes, at most so many.
    #[tactic(auto, using(crate::proofs::Ranges::range_front, crate::proofs::Ranges::range_short))]
    pub fn front(self, count: usize) -> Part
        ensures { result ≡ take count self }
    {
        let Part { whole, start, end } = self;
        if count > end - start {
            return Part { whole, start, end };
        }
        Part {
            whole,
            start,
            end: start + count,
        }
    }

    /// Its bytes as a `Vec`. They are moved where it is all of them and nobody else holds them, and
    /// copied else.
    #[tactic(auto, using(crate::proofs::Ranges::range_all))]
    pub fn into_vec(self) -> Result<Vec<u8>, NoMemory>
        ensures { IfOk result (λ bytes. bytes.items ≡ self) }
    {
        let all: &Vec<u8> = &self.whole;
        if self.start > 0 || self.end < all.len() {
            return copy_of(*all.allocator(), self.get());
        }
        let Part {
            whole,
            start: _,
            end: _,
        } = self;
        match Arc::try_unwrap(whole) {
            Ok(bytes) => Ok(bytes),
            Err(whole) => {
                let all: &Vec<u8> = &whole;
                copy_of(*all.allocator(), all.as_slice())
            }
        }
    }
}

fn copy_of(alloc: Global, bytes: &[u8]) -> Result<Vec<u8>, NoMemory>
    ensures { IfOk result (λ copy. copy.items ≡ bytes.now) }
{
    let copy = Vec::from_slice(alloc, bytes)?;
    Ok(copy)
}
