ghost use Rattle.std.specs.Prelude.{◌≡◌, ◌<◌, ◌≤◌, length, take, drop, min, Some, false};
ghost use Rattle.dsv_outside.specs.Causes.{HasCause};
ghost use Rattle.dsv_outside.specs.Sources.{TakesFirst, TellsOver, is_failed_got, got_of};

use crate::got::Got;
use crate::source::Source;
use dsv_base::Bytes;
use std::marker::Model;

/// A source in memory that never fails. Contracts see the bytes that are left, and whether it is
/// over.
#[derive(Debug, Drop)]
pub struct SureSource {
    bytes: Bytes,
    at: usize,
    over: bool,
}

impl Model for SureSource {
    ghost use Rattle.std.specs.Prelude.{◌≡◌, ◌≤◌, true, length, drop};
    ghost use Rattle.dsv_outside.specs.SourceStates.{SureSourceState};

    ghost Value = { SureSourceState };

    ghost view = { λ s. record { left = drop s.at s.bytes; over = s.over } };

    ghost invariant = { λ s. (s.at ≤ length s.bytes) × (s.over ≡ true → s.at ≡ length s.bytes) };
}

impl SureSource {
    /// A source of these bytes.
    pub fn new(left: Bytes) -> SureSource
        ensures { result ≡ record { left = left; over = false } }
    {
        SureSource {
            bytes: left,
            at: 0,
            over: false,
        }
    }

    /// The bytes that are left.
    pub(crate) fn left(&self) -> &[u8]
        ensures { result.now ≡ self.now.left }
    {
        bytes_from(self.bytes.get(), self.at)
    }

    /// Whether a call has answered [`Got::End`].
    pub(crate) fn is_over(&self) -> bool
        ensures { result ≡ self.now.over }
    {
        self.over
    }
}

impl Source for SureSource {
    ghost left = { λ s. Some s.left };

    ghost over = { λ s. s.over };

    ghost faults = { λ _. 0 };

    /// Reads as many bytes as there are and fit, and never fails.
    fn read(&mut self, into: &mut [u8]) -> Got
        requires { 0 < length into.old }
        ensures bytes { TakesFirst (Some self.old.left) (Some self.new.left) result into.new }
        ensures over { TellsOver self.old.over self.new.over result }
        ensures cause { HasCause 0 0 (is_failed_got result) }
        ensures exact { result ≡ got_of self.old.left (length into.old) }
    {
        let left = &self.bytes.get()[self.at..];
        if left.is_empty() {
            self.over = true;
            return Got::End;
        }
        let count = copy_front(left, into);
        self.at += count;
        Got::Bytes(count)
    }
}

/// Copies as many bytes as there are and fit, and says how many.
fn copy_front(from: &[u8], into: &mut [u8]) -> usize
    ensures count { result ≡ min (length from.now) (length into.old) }
    ensures same { take result into.new ≡ take result from.now }
{
    let count = from.len().min(into.len());
    into[..count].copy_from_slice(&from[..count]);
    count
}

fn bytes_from(bytes: &[u8], at: usize) -> &[u8]
    requires { at ≤ length bytes.now }
    ensures { result.now ≡ drop at bytes.now }
{
    &bytes[at..]
}
