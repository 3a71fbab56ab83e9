ghost use Rattle.std.specs.Prelude.{◌≡◌, ◌<◌, length, false};
ghost use Rattle.std.specs.Io.{ReadsAtMost};
ghost use Rattle.std.specs.Io.KnownBytes.{ReadConsumes};
ghost use Rattle.dsv_outside.specs.Causes.{HasCause, count_after};
ghost use Rattle.dsv_outside.specs.Sources.{TakesFirst, TellsOver, is_failed_got};

use dsv_outside::{Got, Source};
use std::io;
use std::io::{ErrorKind, Read};
use std::marker::Model;

/// Any reader of std as a source. It tells what is left where the reader knows it, as one over
/// memory does, and a file or a stream doesn't. Contracts see the reader, whether the source is
/// over, and the count of faults: each error of the reader is one.
#[derive(Drop)]
pub struct Reading<R: Read> {
    inner: R,
    over: bool,
    faults: u64,
}

impl<R: Read> Model for Reading<R> {
    ghost use Rattle.std.specs.Prelude.{◌≡◌, true};
    ghost use Rattle.std.specs.Io.KnownBytes.{IsAtEnd};
    ghost use Rattle.davsvn.specs.AdapterStates.{ReadingState};

    ghost Value = { ReadingState R };

    ghost view = { λ s. record { inner = s.inner; over = s.over; faults = s.faults } };

    ghost invariant = { λ s. s.over ≡ true → IsAtEnd (R.remaining s.inner) };
}

impl<R: Read> Reading<R> {
    /// The reader as a source that isn't over.
    pub fn new(inner: R) -> Reading<R>
        ensures { result ≡ record { inner = inner; over = false; faults = 0 } }
    {
        Reading {
            inner,
            over: false,
            faults: 0,
        }
    }
}

impl<R: Read + Drop> Reading<R> {
    /// The reader.
    pub fn into_inner(self) -> R
        ensures { result ≡ self.inner }
    {
        self.inner
    }
}

impl<R: Read> Source for Reading<R> {
    ghost left = { λ s. R.remaining s.inner };

    ghost over = { λ s. s.over };

    ghost faults = { λ s. s.faults };

    /// One read of the reader, or two where a signal interrupts the first. Once it has given nothing, it
    /// isn't asked again.
    fn read(&mut self, into: &mut [u8]) -> Got
        requires { 0 < length into.old }
        ensures bytes { TakesFirst (R.remaining self.old.inner) (R.remaining self.new.inner)
            result into.new }
        ensures over { TellsOver self.old.over self.new.over result }
        ensures cause { HasCause self.old.faults self.new.faults (is_failed_got result) }
        ensures faults { self.new.faults ≡ count_after (is_failed_got result) self.old.faults }
    {
        if self.over {
            return Got::End;
        }
        match read_again(&mut self.inner, into) {
            Ok(0) => {
                self.over = true;
                Got::End
            }
            Ok(count) => Got::Bytes(count),
            Err(_) => {
                self.faults = self.faults.saturating_add(1);
                Got::Failed
            }
        }
    }
}

/// One read, and another where a signal interrupted it: a stream that waits for a stated time is
/// interrupted when its process was stopped and goes on.
fn read_again<R: Read>(inner: &mut R, into: &mut [u8]) -> io::Result<usize>
    ensures bound { ReadsAtMost result into.new }
    ensures bytes { ReadConsumes (R.remaining inner.old) (R.remaining inner.new) result into.new }
{
    match inner.read(into) {
        Err(error) if error.kind() == ErrorKind::Interrupted => inner.read(into),
        ended => ended,
    }
}
