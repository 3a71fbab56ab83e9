use crate::cores::Core;
use atomic_table::{Seat, Shared, Table, TableRule};
use std::alloc::Global;
use std::marker::Model;
use std::snapshot::Snapshot;

/// The word that counts the tickets that were taken, modulo 2^64.
pub(crate) const TICKET: usize = 0;

/// The word that counts the turns that were passed on, modulo 2^64: the ticket that is served.
pub(crate) const SERVING: usize = 1;

/// The word that counts the entries of the history.
pub(crate) const COUNT: usize = 2;

/// The slot of the hub.
pub(crate) const HUB: usize = 0;

/// What a seat at the table knows. No value of it is made.
pub struct Knowledge {
    nothing: u8,
}

impl Model for Knowledge {
    ghost use Rattle.hub_turn.specs.Views.{SeatView};
    ghost use Rattle.hub_turn.specs.Plays.{spent};

    ghost Value = { SeatView };

    ghost view = { λ _. spent };
}

/// What a table is told once: the hub that it begins with, for contracts alone, and the number of its
/// passes.
#[derive(Drop)]
pub struct Key<H> {
    pub(crate) hub: Snapshot<H>,
    pub(crate) passes: u64,
}

/// The rule of the table.
pub struct Law;

impl<H: Core> TableRule<Option<H>, Knowledge, Key<H>> for Law {
    ghost use Rattle.hub_turn.specs.Starts.{start_of, whole};
    ghost use Rattle.hub_turn.specs.Rule.{Ruled};

    ghost holds = { λ key. Ruled H.told (start_of H.told key) };

    ghost first = { λ key. whole (start_of H.told key) };
}

/// The table.
pub(crate) type Board<H> = Table<Option<H>, Knowledge, Key<H>, Law, Global>;

/// The table as steps see it.
pub(crate) type Shelf<H> = Shared<Option<H>, Knowledge, Key<H>, Law>;

/// A seat at the table.
pub(crate) type Place<H> = Seat<Option<H>, Knowledge>;
