ghost use Rattle.std.specs.Prelude.{◌≡◌, ◌≢◌, IfOk, Some, true, false};
ghost use Rattle.dsv_outside.specs.Causes.{HasCause};
ghost use Rattle.dsv_outside.specs.Doors.{Accepts, is_failed_accept, new_door, went_back};

use crate::accepted::Accepted;
use crate::door::Door;
use crate::door_book::DoorBook;
use crate::door_record::DoorRecord;
use crate::serve_end::ServeEnd;
use crate::sure_sink::SureSink;
use crate::sure_source::SureSource;
use dsv_base::{Bytes, NoMemory};
use std::marker::Model;

/// A door in memory that never fails, and gives pairs that never do. Contracts see what a door tells.
#[derive(Debug, Drop)]
pub struct SureDoor {
    book: DoorBook,
}

impl Model for SureDoor {
    ghost use Rattle.dsv_outside.specs.DoorStates.{DoorState};

    ghost Value = { DoorState };

    ghost view = { λ d. d.book };
}

impl SureDoor {
    /// A door that gives pairs with these inputs, in order. Its one error is want of memory for all
    /// that is to go back.
    pub fn new(coming: Vec<Bytes>) -> Result<SureDoor, NoMemory>
        ensures { IfOk result (λ door. door ≡ new_door coming.items) }
    {
        let book = DoorBook::new(coming)?;
        Ok(SureDoor { book })
    }

    /// The pairs that went back, in order.
    pub fn returned(&self) -> &[DoorRecord]
        ensures { Some result.now ≡ self.now.returned }
    {
        self.book.returned()
    }
}

impl Door for SureDoor {
    type S = SureSource;

    type K = SureSink;

    ghost state = { λ d. d };

    ghost faults = { λ _. 0 };

    /// A pair with the next input, until there is none. It never fails.
    fn accept(&mut self) -> Accepted<SureSource, SureSink>
        requires { self.old.out ≡ false }
        ensures gives { Accepts
            (λ source sink. record {
              left = Some source.left;
              over = source.over;
              source_faults = 0;
              taken = Some sink;
              sink_faults = 0;
            })
            self.old self.new result }
        ensures cause { HasCause 0 0 (is_failed_accept result) }
        ensures never { is_failed_accept result ≡ false }
    {
        match self.book.next() {
            Some(input) => {
                let sink = SureSink::new(Vec::new(input.allocator()));
                Accepted::Pair(SureSource::new(input), sink)
            }
            None => Accepted::End,
        }
    }

    /// Keeps the pair as it is.
    fn back(&mut self, source: SureSource, sink: SureSink, end: ServeEnd)
        requires { self.old.out ≡ true }
        ensures returned { self.new ≡ went_back self.old (record {
          end = end;
          pair = record {
            left = Some source.left;
            over = source.over;
            source_faults = 0;
            taken = Some sink;
            sink_faults = 0;
          };
        }) }
    {
        self.book.back(DoorRecord::of_sure(end, source, sink));
    }
}
