ghost use Rattle.std.specs.Prelude.{◌≡◌, ◌≢◌, None};
ghost use Rattle.std.specs.Io.KnownBytes.{Appends};
ghost use Rattle.dsv_outside.specs.Causes.{HasCause, count_after};
ghost use Rattle.dsv_outside.specs.Sinks.{PutGives, is_failed_put};

use dsv_outside::{Put, Sink};
use std::io::Write;
use std::marker::Model;

/// Any writer of std as a sink that tells nothing of its bytes. Contracts see the writer and the
/// count of faults: each put that failed is one.
#[derive(Drop)]
pub struct Writing<W: Write> {
    inner: W,
    faults: u64,
}

impl<W: Write> Model for Writing<W> {
    ghost use Rattle.davsvn.specs.AdapterStates.{WritingState};

    ghost Value = { WritingState W };

    ghost view = { λ s. record { inner = s.inner; faults = s.faults } };
}

impl<W: Write> Writing<W> {
    /// The writer as a sink.
    pub fn new(inner: W) -> Writing<W>
        ensures { result ≡ record { inner = inner; faults = 0 } }
    {
        Writing { inner, faults: 0 }
    }
}

impl<W: Write> Sink for Writing<W> {
    ghost taken = { λ _. None };

    ghost faults = { λ s. s.faults };

    /// Writes all the bytes and flushes. What a put that failed has written isn't known, so want of
    /// memory in the writer is a failure too.
    fn put(&mut self, bytes: &[u8]) -> Put
        ensures bytes { PutGives None None result bytes.now }
        ensures cause { HasCause self.old.faults self.new.faults (is_failed_put result) }
        ensures faults { self.new.faults ≡ count_after (is_failed_put result) self.old.faults }
        ensures written { result ≡ Put.Done →
            Appends (W.contents self.old.inner) (W.contents self.new.inner) bytes.now }
        ensures memory { result ≢ Put.NoMemory }
    {
        if self.inner.write_all(bytes).is_ok() && self.inner.flush().is_ok() {
            return Put::Done;
        }
        self.faults = self.faults.saturating_add(1);
        Put::Failed
    }
}
