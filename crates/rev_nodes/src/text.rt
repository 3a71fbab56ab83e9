ghost use Rattle.std.specs.Prelude.{◌≡◌, [], IfOk};
ghost use Rattle.md5.specs.Md5.{md5};
ghost use Rattle.sha1.specs.Sha1.{sha1};

use crate::summed::Summed;
use dsv_base::{Bytes, NoMemory};
use md5::{Digest, Md5};
use sha1::Sha1;
use std::alloc::Global;
use std::marker::Model;
use std::sync::Arc;

/// The text of a file with its MD5 (RFC 1321) and its SHA-1 (RFC 3174), which are made once: whoever
/// has the text has them together with all others. Contracts see it as a list of numbers.
#[derive(Debug, Drop)]
pub struct Text {
    held: Option<Arc<Summed>>,
}

impl Model for Text {
    ghost use Rattle.std.specs.Prelude.{List, ℕ, []};
    ghost use Rattle.std.specs.Option.{option_map_or};
    ghost use Rattle.std.specs.Arc.{arc_value};

    ghost Value = { List ℕ };

    ghost view = { λ t. option_map_or (λ a. arc_value a) t.held [] };
}

impl Text {
    /// The empty text.
    pub fn empty() -> Text
        ensures { result ≡ [] }
    {
        Text { held: None }
    }

    /// The text of these bytes, which are moved. Its one error is want of memory.
    pub fn of(bytes: Bytes) -> Result<Text, NoMemory>
        ensures { IfOk result (λ text. text ≡ bytes) }
    {
        if bytes.get().is_empty() {
            return Ok(Text { held: None });
        }
        let alloc = bytes.allocator();
        let held = Arc::new(alloc, Summed::of(bytes))?;
        Ok(Text { held: Some(held) })
    }

    /// Its bytes, to be read.
    pub fn get(&self) -> &[u8]
        ensures { result.now ≡ self.now }
    {
        match &self.held {
            None => &[],
            Some(held) => {
                let held: &Summed = held;
                held.bytes().get()
            }
        }
    }

    /// Its MD5.
    pub fn md5(&self) -> [u8; 16]
        ensures { result ≡ md5 self.now }
    {
        match &self.held {
            None => Md5::digest(b"".as_slice()),
            Some(held) => {
                let held: &Summed = held;
                held.md5()
            }
        }
    }

    /// Its SHA-1.
    pub fn sha1(&self) -> [u8; 20]
        ensures { result ≡ sha1 self.now }
    {
        match &self.held {
            None => Sha1::digest(b"".as_slice()),
            Some(held) => {
                let held: &Summed = held;
                held.sha1()
            }
        }
    }

    /// The same text once more, held together with this. Its one error is want of memory.
    pub fn share(&self) -> Result<Text, NoMemory>
        ensures { IfOk result (λ text. text ≡ self.now) }
    {
        match &self.held {
            None => Ok(Text { held: None }),
            Some(held) => {
                let held = Arc::try_clone(held)?;
                Ok(Text { held: Some(held) })
            }
        }
    }

    /// Its bytes, held together with it. Its one error is want of memory.
    pub fn bytes(&self, alloc: Global) -> Result<Bytes, NoMemory>
        ensures { IfOk result (λ bytes. bytes ≡ self.now) }
    {
        match &self.held {
            None => Ok(Bytes::from_vec(Vec::new(alloc))),
            Some(held) => {
                let held: &Summed = held;
                held.bytes().copy()
            }
        }
    }
}
