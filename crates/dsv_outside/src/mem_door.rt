ghost use Rattle.std.specs.Prelude.{◌≡◌, ◌↔◌, IfOk, Some, true, false};
ghost use Rattle.dsv_outside.specs.Causes.{HasCause};
ghost use Rattle.dsv_outside.specs.Calls.{IsDue, no_calls, after_call};
ghost use Rattle.dsv_outside.specs.Doors.{Accepts, is_failed_accept, new_door, went_back};

use crate::accepted::Accepted;
use crate::calls::Calls;
use crate::door::Door;
use crate::door_book::DoorBook;
use crate::door_record::DoorRecord;
use crate::mem_sink::MemSink;
use crate::mem_source::MemSource;
use crate::serve_end::ServeEnd;
use dsv_base::{Bytes, NoMemory};
use std::marker::Model;

/// A door in memory, some of whose calls of `accept` fail. Contracts see what a door tells, and these
/// calls: the numbers of those that fail, the number of the next, and the count of faults.
#[derive(Debug, Drop)]
pub struct MemDoor {
    book: DoorBook,
    calls: Calls,
}

impl Model for MemDoor {
    ghost use Rattle.dsv_outside.specs.DoorStates.{MemDoorState};

    ghost Value = { MemDoorState };

    ghost view = { λ d. record { door = d.book; calls = d.calls } };
}

impl MemDoor {
    /// A door that gives pairs with these inputs, in order, whose calls of `accept` with the numbers in
    /// `failing` fail, counted from 0. No call of the pairs fails. Its one error is want of memory for
    /// all that is to go back.
    pub fn new(coming: Vec<Bytes>, failing: Vec<u64>) -> Result<MemDoor, NoMemory>
        ensures { IfOk result (λ door.
            door ≡ record { door = new_door coming.items; calls = no_calls failing.items }) }
    {
        let book = DoorBook::new(coming)?;
        Ok(MemDoor {
            book,
            calls: Calls::new(failing),
        })
    }

    /// The pairs that went back, in order.
    pub fn returned(&self) -> &[DoorRecord]
        ensures { Some result.now ≡ self.now.door.returned }
    {
        self.book.returned()
    }
}

impl Door for MemDoor {
    type S = MemSource;

    type K = MemSink;

    ghost state = { λ d. d.door };

    ghost faults = { λ d. d.calls.faults };

    /// A pair with the next input, until there is none. The calls whose numbers were given fail as long
    /// as the door isn't shut, and no others.
    fn accept(&mut self) -> Accepted<MemSource, MemSink>
        requires { self.old.door.out ≡ false }
        ensures gives { Accepts
            (λ source sink. record {
              left = Some source.left;
              over = source.over;
              source_faults = source.calls.faults;
              taken = Some sink.taken;
              sink_faults = sink.calls.faults;
            })
            self.old.door self.new.door result }
        ensures cause { HasCause self.old.calls.faults self.new.calls.faults
            (is_failed_accept result) }
        ensures fails { (is_failed_accept result ≡ true) ↔
            (IsDue self.old.calls × (self.old.door.shut ≡ false)) }
        ensures calls { self.new.calls ≡ after_call (is_failed_accept result) self.old.calls }
    {
        let is_due = self.calls.begin();
        if is_due && !self.book.is_shut() {
            self.calls.fail();
            return Accepted::Failed;
        }
        match self.book.next() {
            Some(input) => {
                let alloc = input.allocator();
                let sink = MemSink::new(Vec::new(alloc), Vec::new(alloc));
                Accepted::Pair(MemSource::new(input, Vec::new(alloc)), sink)
            }
            None => Accepted::End,
        }
    }

    /// Keeps the pair as it is. It isn't one of the calls that are counted.
    fn back(&mut self, source: MemSource, sink: MemSink, end: ServeEnd)
        requires { self.old.door.out ≡ true }
        ensures returned { self.new.door ≡ went_back self.old.door (record {
          end = end;
          pair = record {
            left = Some source.left;
            over = source.over;
            source_faults = source.calls.faults;
            taken = Some sink.taken;
            sink_faults = sink.calls.faults;
          };
        }) }
        ensures calls { self.new.calls ≡ self.old.calls }
        ensures same { self.new.calls.faults ≡ self.old.calls.faults }
    {
        self.book.back(DoorRecord::of(end, source, sink));
    }
}
