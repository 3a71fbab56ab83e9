ghost use Rattle.std.specs.Prelude.{◌≡◌, ◌≢◌, Some};
ghost use Rattle.dsv_outside.specs.Causes.{HasCause};
ghost use Rattle.dsv_outside.specs.Sinks.{PutGives, is_failed_put};

use crate::put::Put;
use crate::sink::Sink;
use std::marker::Model;

/// A sink in memory that never fails. Contracts see the bytes that it has taken.
#[derive(Debug, Drop)]
pub struct SureSink {
    taken: Vec<u8>,
}

impl Model for SureSink {
    ghost use Rattle.std.specs.Prelude.{ℕ, List};

    ghost Value = { List ℕ };

    ghost view = { λ s. s.taken.items };
}

impl SureSink {
    /// A sink that has taken these bytes.
    pub fn new(taken: Vec<u8>) -> SureSink
        ensures { result ≡ taken.items }
    {
        SureSink { taken }
    }

    /// The bytes taken so far.
    pub fn taken(&self) -> &[u8]
        ensures { result.now ≡ self.now }
    {
        self.taken.as_slice()
    }
}

impl Sink for SureSink {
    ghost taken = { λ s. Some s };

    ghost faults = { λ _. 0 };

    /// Appends all the bytes. It never fails, but memory may be wanting.
    fn put(&mut self, bytes: &[u8]) -> Put
        ensures bytes { PutGives (Some self.old) (Some self.new) result bytes.now }
        ensures cause { HasCause 0 0 (is_failed_put result) }
        ensures never { result ≢ Put.Failed }
    {
        match self.taken.extend_from_slice(bytes) {
            Ok(()) => Put::Done,
            Err(_) => Put::NoMemory,
        }
    }
}
