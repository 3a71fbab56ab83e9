use dsv_base::{Bytes, NoMemory, push_decimal};
use std::alloc::{AllocError, Global};

/// The answer to a row of a table, while it is written. Once it was given up there is none, whatever is
/// written after that.
#[derive(Drop)]
pub struct Answer {
    bytes: Vec<u8>,
    is_given_up: bool,
}

impl Answer {
    /// An answer without bytes.
    pub fn new(alloc: Global) -> Answer {
        Answer {
            bytes: Vec::new(alloc),
            is_given_up: false,
        }
    }

    /// Gives up: the row isn't in its table's form, or memory ended.
    pub fn give_up(&mut self) {
        self.is_given_up = true;
    }

    /// Writes a text.
    pub fn put(&mut self, text: &[u8]) {
        if self.bytes.extend_from_slice(text).is_err() {
            self.is_given_up = true;
        }
    }

    /// Writes a number.
    pub fn put_number(&mut self, number: u64) {
        if push_decimal(&mut self.bytes, number).is_err() {
            self.is_given_up = true;
        }
    }

    /// Writes `yes` or `no`.
    pub fn put_word(&mut self, is_so: bool) {
        self.put(if is_so { b"yes" } else { b"no" });
    }

    /// Writes an item of several, which stand apart by commas.
    pub fn put_item(&mut self, item: &[u8]) {
        if !self.bytes.is_empty() {
            self.put(b", ");
        }
        self.put(item);
    }

    /// Writes a text that was made, if it could be.
    pub fn put_made(&mut self, made: Result<Bytes, NoMemory>) {
        match made {
            Ok(text) => self.put(text.get()),
            Err(_) => self.give_up(),
        }
    }

    /// Writes what a call shows of itself, if memory was there for it.
    pub fn put_shown(&mut self, shown: Result<String, AllocError>) {
        match shown {
            Ok(text) => self.put(text.as_bytes()),
            Err(_) => self.give_up(),
        }
    }

    /// The bytes that were written, unless it was given up.
    pub fn end(self) -> Option<Vec<u8>> {
        let Answer { bytes, is_given_up } = self;
        if is_given_up { None } else { Some(bytes) }
    }
}
