use crate::board::Knowledge;
use crate::cores::Core;
use atomic_table::{Join, Play, Split};

/// The first seat takes the empty slot.
pub(crate) struct Open;

impl<H: Core> Play<Option<H>, Knowledge> for Open {
    ghost use Rattle.hub_turn.specs.Plays.{opened};

    ghost then = { opened };
}

/// A seat takes a ticket.
pub(crate) struct Take;

impl<H: Core> Play<Option<H>, Knowledge> for Take {
    ghost use Rattle.hub_turn.specs.Plays.{took};

    ghost then = { took };
}

/// A seat looks whether its ticket is served, and takes the hub's slot where it is.
pub(crate) struct Look;

impl<H: Core> Play<Option<H>, Knowledge> for Look {
    ghost use Rattle.hub_turn.specs.Plays.{looked};

    ghost then = { looked H.told };
}

/// The history's length is counted up by the call's entries.
pub(crate) struct Count;

impl<H: Core> Play<Option<H>, Knowledge> for Count {
    ghost use Rattle.hub_turn.specs.Plays.{counted};

    ghost then = { counted H.told };
}

/// The slot goes home, and the next ticket is served.
pub(crate) struct PassOn;

impl<H: Core> Play<Option<H>, Knowledge> for PassOn {
    ghost use Rattle.hub_turn.specs.Plays.{passed};

    ghost then = { passed };
}

/// The first pass of a seat gets a seat of its own.
pub(crate) struct Deal;

impl Split<Knowledge> for Deal {
    ghost use Rattle.hub_turn.specs.Plays.{all_but_first, first_only};

    ghost left = { all_but_first };

    ghost right = { first_only };
}

/// The passes of another seat come to a seat.
pub(crate) struct Gather;

impl Join<Knowledge> for Gather {
    ghost use Rattle.hub_turn.specs.Plays.{joined_view, spent};

    ghost both = { joined_view };

    ghost spent = { spent };
}
