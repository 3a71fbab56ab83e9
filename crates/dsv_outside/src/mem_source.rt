ghost use Rattle.std.specs.Prelude.{◌≡◌, ◌≢◌, ◌↔◌, ◌<◌, length, Some, false};
ghost use Rattle.dsv_outside.specs.Causes.{HasCause};
ghost use Rattle.dsv_outside.specs.Calls.{IsDue, no_calls, after_call};
ghost use Rattle.dsv_outside.specs.Sources.{TakesFirst, TellsOver, is_failed_got, got_of};

use crate::calls::Calls;
use crate::got::Got;
use crate::source::Source;
use crate::sure_source::SureSource;
use dsv_base::Bytes;
use std::marker::Model;

/// A source in memory, some of whose calls fail. Contracts see the bytes that are left, whether it
/// is over, and the calls: the numbers of those that fail, the number of the next, and the count of
/// faults.
#[derive(Debug, Drop)]
pub struct MemSource {
    source: SureSource,
    calls: Calls,
}

impl Model for MemSource {
    ghost use Rattle.dsv_outside.specs.SourceStates.{MemSourceState};

    ghost Value = { MemSourceState };

    ghost view = { λ s. record { left = s.source.left; over = s.source.over; calls = s.calls } };
}

impl MemSource {
    /// A source of these bytes, whose calls with these numbers fail, counted from 0.
    pub fn new(left: Bytes, failing: Vec<u64>) -> MemSource
        ensures { result ≡ record { left = left; over = false; calls = no_calls failing.items } }
    {
        MemSource {
            source: SureSource::new(left),
            calls: Calls::new(failing),
        }
    }

    /// The source without its calls, and how many of these have failed.
    pub(crate) fn into_parts(self) -> (SureSource, u64)
        ensures source { result.0 ≡ record { left = self.left; over = self.over } }
        ensures faults { result.1 ≡ self.calls.faults }
    {
        let MemSource { source, calls } = self;
        (source, calls.faults())
    }
}

impl Source for MemSource {
    ghost left = { λ s. Some s.left };

    ghost over = { λ s. s.over };

    ghost faults = { λ s. s.calls.faults };

    /// Reads as many bytes as there are and fit. The calls whose numbers were given fail, and no
    /// others.
    fn read(&mut self, into: &mut [u8]) -> Got
        requires { 0 < length into.old }
        ensures bytes { TakesFirst (Some self.old.left) (Some self.new.left) result into.new }
        ensures over { TellsOver self.old.over self.new.over result }
        ensures cause { HasCause self.old.calls.faults self.new.calls.faults
            (is_failed_got result) }
        ensures fails { (result ≡ Got.Failed) ↔ IsDue self.old.calls }
        ensures exact { result ≢ Got.Failed → result ≡ got_of self.old.left (length into.old) }
        ensures calls { self.new.calls ≡ after_call (is_failed_got result) self.old.calls }
    {
        if self.calls.begin() {
            self.calls.fail();
            return Got::Failed;
        }
        self.source.read(into)
    }
}
