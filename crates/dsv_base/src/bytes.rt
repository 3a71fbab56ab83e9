ghost use Rattle.std.specs.Prelude.{◌≡◌, IfOk, take, drop};

use crate::held::Held;
use crate::no_memory::NoMemory;
use crate::part::Part;
use std::alloc::Global;
use std::marker::Model;

/// Bytes, which a copy or a part of them holds together with them: each text is in memory once.
/// Contracts see them as a list of numbers.
#[derive(Debug, Drop)]
pub struct Bytes {
    held: Held,
}

impl Model for Bytes {
    ghost use Rattle.std.specs.Prelude.{List, ℕ};
    ghost use Rattle.dsv_base.specs.Holding.{held_bytes};

    ghost Value = { List ℕ };

    ghost view = { λ b. held_bytes b.held };
}

impl Bytes {
    /// A copy of `bytes`. Its one error is want of memory.
    pub fn of(alloc: Global, bytes: &[u8]) -> Result<Bytes, NoMemory>
        ensures { IfOk result (λ b. b ≡ bytes.now) }
    {
        let bytes = Vec::from_slice(alloc, bytes)?;
        Ok(Bytes::from_vec(bytes))
    }

    /// The bytes of `bytes`, which is moved and not copied.
    pub fn from_vec(bytes: Vec<u8>) -> Bytes
        ensures { result ≡ bytes.items }
    {
        if bytes.is_empty() {
            return Bytes {
                held: Held::Alone(bytes),
            };
        }
        match Part::of(bytes) {
            Ok(part) => Bytes {
                held: Held::Together(part),
            },
            Err(bytes) => Bytes {
                held: Held::Alone(bytes),
            },
        }
    }

    /// The bytes, to be read.
    pub fn get(&self) -> &[u8]
        ensures { result.now ≡ self.now }
    {
        match &self.held {
            Held::Alone(bytes) => bytes.as_slice(),
            Held::Together(part) => part.get(),
        }
    }

    /// The allocator of the bytes.
    pub fn allocator(&self) -> Global {
        match &self.held {
            Held::Alone(bytes) => *bytes.allocator(),
            Held::Together(part) => part.allocator(),
        }
    }

    /// The bytes as a `Vec`: moved where nobody else holds them, and copied else. Its one error is
    /// want of memory.
    pub fn into_vec(self) -> Result<Vec<u8>, NoMemory>
        ensures { IfOk result (λ bytes. bytes.items ≡ self) }
    {
        let Bytes { held } = self;
        held.into_vec()
    }

    /// The same bytes, held together with these. Its one error is want of memory.
    pub fn copy(&self) -> Result<Bytes, NoMemory>
        ensures { IfOk result (λ b. b ≡ self.now) }
    {
        match &self.held {
            Held::Alone(bytes) => Ok(Bytes::from_vec(bytes.clone()?)),
            Held::Together(part) => Ok(Bytes {
                held: Held::Together(part.share()?),
            }),
        }
    }

    /// The bytes behind the first `start` ones, at most `count`, held together with these. Its one
    /// error is want of memory.
    pub fn part(&self, start: usize, count: usize) -> Result<Bytes, NoMemory>
        ensures { IfOk result (λ b. b ≡ take count (drop start self.now)) }
    {
        match &self.held {
            Held::Alone(bytes) => {
                let behind = bytes_after(bytes.as_slice(), start);
                Bytes::of(*bytes.allocator(), first_bytes(behind, count))
            }
            Held::Together(part) => Ok(Bytes {
                held: Held::Together(part.share()?.after(start).front(count)),
            }),
        }
    }

    /// All bytes behind the first `start` ones, held together with these. Its one error is want of
    /// memory.
    pub fn after(&self, start: usize) -> Result<Bytes, NoMemory>
        ensures { IfOk result (λ b. b ≡ drop start self.now) }
    {
        match &self.held {
            Held::Alone(bytes) => {
                Bytes::of(*bytes.allocator(), bytes_after(bytes.as_slice(), start))
            }
            Held::Together(part) => Ok(Bytes {
                held: Held::Together(part.share()?.after(start)),
            }),
        }
    }
}

fn first_bytes(bytes: &[u8], most: usize) -> &[u8]
    ensures { result.now ≡ take most bytes.now }
{
    if bytes.len() > most {
        return &bytes[..most];
    }
    bytes
}

fn bytes_after(bytes: &[u8], start: usize) -> &[u8]
    ensures { result.now ≡ drop start bytes.now }
{
    if start < bytes.len() {
        return &bytes[start..];
    }
    &bytes[bytes.len()..]
}
