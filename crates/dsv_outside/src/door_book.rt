ghost use Rattle.std.specs.Prelude.{◌≡◌, IfOk, Some, true, false};
ghost use Rattle.dsv_outside.specs.Doors.{new_door, NextInput, went_back};

use crate::door_record::DoorRecord;
use dsv_base::{Bytes, NoMemory};
use std::collections::VecDeque;
use std::marker::Model;

/// What a door in memory is to give, and what went back to it. The room for all that may go back is
/// taken when it is made.
#[derive(Debug, Drop)]
pub(crate) struct DoorBook {
    coming: VecDeque<Bytes>,
    returned: Vec<DoorRecord>,
    given: u64,
    shut: bool,
    out: bool,
}

impl Model for DoorBook {
    ghost use Rattle.std.specs.Prelude.{◌≡◌, ◌≤◌, ◌+◌, Some, [], true, if◌then◌else◌, length, vec_len, vec_capacity};
    ghost use Rattle.dsv_outside.specs.DoorStates.{DoorState};

    ghost Value = { DoorState };

    ghost view = { λ b. record {
      given = b.given;
      shut = b.shut;
      out = b.out;
      coming = Some b.coming.items;
      returned = Some b.returned.items;
    } };

    ghost invariant = { λ b.
        (vec_len b.returned + length b.coming.items + (if b.out then 1 else 0) ≤ vec_capacity b.returned)
        × (b.shut ≡ true → b.coming.items ≡ []) };
}

impl DoorBook {
    /// Pairs with these inputs are to come. Its one error is want of memory.
    pub(crate) fn new(coming: Vec<Bytes>) -> Result<DoorBook, NoMemory>
        ensures { IfOk result (λ book. book ≡ new_door coming.items) }
    {
        let returned = Vec::with_capacity(*coming.allocator(), coming.len())?;
        Ok(DoorBook {
            coming: VecDeque::from_vec(coming),
            returned,
            given: 0,
            shut: false,
            out: false,
        })
    }

    /// Whether the door has answered that no pair is to come.
    pub(crate) fn is_shut(&self) -> bool
        ensures { result ≡ self.now.shut }
    {
        self.shut
    }

    /// The input of the pair that is given now, or none, by which the door is shut.
    pub(crate) fn next(&mut self) -> Option<Bytes>
        requires { self.old.out ≡ false }
        ensures { NextInput self.old self.new result }
    {
        if self.shut {
            return None;
        }
        match self.coming.pop_front() {
            Some(input) => {
                self.given = self.given.saturating_add(1);
                self.out = true;
                Some(input)
            }
            None => {
                self.shut = true;
                None
            }
        }
    }

    /// Takes a pair back.
    pub(crate) fn back(&mut self, last: DoorRecord)
        requires { self.old.out ≡ true }
        ensures { self.new ≡ went_back self.old last }
    {
        self.returned.push_reserved(last);
        self.out = false;
    }

    /// The pairs that went back, in order.
    pub(crate) fn returned(&self) -> &[DoorRecord]
        ensures { Some result.now ≡ self.now.returned }
    {
        self.returned.as_slice()
    }
}
