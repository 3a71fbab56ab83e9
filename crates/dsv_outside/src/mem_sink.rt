ghost use Rattle.std.specs.Prelude.{◌≡◌, ◌↔◌, Some};
ghost use Rattle.dsv_outside.specs.Causes.{HasCause};
ghost use Rattle.dsv_outside.specs.Calls.{IsDue, no_calls, after_call};
ghost use Rattle.dsv_outside.specs.Sinks.{PutGives, is_failed_put};

use crate::calls::Calls;
use crate::put::Put;
use crate::sink::Sink;
use crate::sure_sink::SureSink;
use std::marker::Model;

/// A sink in memory, some of whose calls fail. Contracts see the bytes that it has taken, and the
/// calls: the numbers of those that fail, the number of the next, and the count of faults.
#[derive(Debug, Drop)]
pub struct MemSink {
    sink: SureSink,
    calls: Calls,
}

impl Model for MemSink {
    ghost use Rattle.dsv_outside.specs.SinkStates.{MemSinkState};

    ghost Value = { MemSinkState };

    ghost view = { λ s. record { taken = s.sink; calls = s.calls } };
}

impl MemSink {
    /// A sink that has taken these bytes, whose calls with these numbers fail, counted from 0.
    pub fn new(taken: Vec<u8>, failing: Vec<u64>) -> MemSink
        ensures { result ≡ record { taken = taken.items; calls = no_calls failing.items } }
    {
        MemSink {
            sink: SureSink::new(taken),
            calls: Calls::new(failing),
        }
    }

    /// The bytes taken so far.
    pub fn taken(&self) -> &[u8]
        ensures { result.now ≡ self.now.taken }
    {
        self.sink.taken()
    }

    /// The sink without its calls, and how many of these have failed.
    pub(crate) fn into_parts(self) -> (SureSink, u64)
        ensures sink { result.0 ≡ self.taken }
        ensures faults { result.1 ≡ self.calls.faults }
    {
        let MemSink { sink, calls } = self;
        (sink, calls.faults())
    }
}

impl Sink for MemSink {
    ghost taken = { λ s. Some s.taken };

    ghost faults = { λ s. s.calls.faults };

    /// Appends all the bytes. The calls whose numbers were given fail and append nothing, and no
    /// others fail.
    fn put(&mut self, bytes: &[u8]) -> Put
        ensures bytes { PutGives (Some self.old.taken) (Some self.new.taken) result bytes.now }
        ensures cause { HasCause self.old.calls.faults self.new.calls.faults
            (is_failed_put result) }
        ensures fails { (result ≡ Put.Failed) ↔ IsDue self.old.calls }
        ensures nothing { result ≡ Put.Failed → self.new.taken ≡ self.old.taken }
        ensures calls { self.new.calls ≡ after_call (is_failed_put result) self.old.calls }
    {
        if self.calls.begin() {
            self.calls.fail();
            return Put::Failed;
        }
        self.sink.put(bytes)
    }
}
