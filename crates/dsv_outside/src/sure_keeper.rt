ghost use Rattle.std.specs.Prelude.{◌≡◌, ◌≢◌, Some};
ghost use Rattle.dsv_outside.specs.Causes.{HasCause};
ghost use Rattle.dsv_outside.specs.Keepers.{kept_after};
ghost use Rattle.dsv_outside.specs.Sinks.{is_failed_put};

use crate::keeper::Keeper;
use crate::put::Put;
use dsv_base::{Bytes, Rev};
use std::marker::Model;

/// A keeper in memory that never fails. Contracts see the numbers with their texts that it has kept.
#[derive(Debug, Drop)]
pub struct SureKeeper {
    kept: Vec<(Rev, Bytes)>,
}

impl Model for SureKeeper {
    ghost use Rattle.std.specs.Prelude.{ℕ, List};

    ghost Value = { List (ℕ × List ℕ) };

    ghost view = { λ k. k.kept.items };
}

impl SureKeeper {
    /// A keeper that has kept these texts under these numbers.
    pub fn new(kept: Vec<(Rev, Bytes)>) -> SureKeeper
        ensures { result ≡ kept.items }
    {
        SureKeeper { kept }
    }

    /// The numbers with their texts kept so far, in order.
    pub fn kept(&self) -> &[(Rev, Bytes)]
        ensures { result.now ≡ self.now }
    {
        self.kept.as_slice()
    }
}

impl Keeper for SureKeeper {
    ghost kept = { λ k. Some k };

    ghost faults = { λ _. 0 };

    /// Appends the pair. It never fails, but memory may be wanting.
    fn keep(&mut self, number: Rev, text: &[u8]) -> Put
        ensures pairs { Some self.new ≡ kept_after result number text.now (Some self.old) }
        ensures cause { HasCause 0 0 (is_failed_put result) }
        ensures never { result ≢ Put.Failed }
    {
        let text = match Bytes::of(*self.kept.allocator(), text) {
            Ok(text) => text,
            Err(_) => return Put::NoMemory,
        };
        match self.kept.push((number, text)) {
            Ok(()) => Put::Done,
            Err(_) => Put::NoMemory,
        }
    }
}
