ghost use Rattle.std.specs.Prelude.{◌≡◌, ◌<◌, ◌^◌, IfOk, MatchResult, length};
ghost use Rattle.http_front.specs.Logins.{IsNamed};
ghost use Rattle.dav_machine.specs.Hubs.{HubState, IsHubOf, present_state, new_hub, events_of};
ghost use Rattle.dav_machine.specs.Turns.{Acted, RepliesOnly};

use crate::answer::Answer;
use crate::call::Call;
use crate::chain::is_head;
use crate::event::Event;
use crate::outgoing::Outgoing;
use crate::present::Present;
use crate::replying::reply_to;
use authz_check::Policy;
use dav_replies::reply_bytes;
use dsv_base::{Bytes, NoMemory};
use dsv_outside::Keeper;
use rev_trees::Trees;
use std::alloc::Global;
use std::marker::Model;
use std::snapshot::Snapshot;

/// The repository machine: the trees, the rights in them and the locks, what was done to them since it
/// began, and the keeper of what is done. Contracts see these, and beside them the state and the keeper that it
/// began with.
#[derive(Drop)]
pub struct Hub<K: Keeper> {
    alloc: Global,
    present: Present,
    /// For contracts alone; it has no bytes.
    opening: Snapshot<Present>,
    history: Vec<Event>,
    /// For each event the name of its user.
    names: Vec<Bytes>,
    keeper: K,
    /// For contracts alone; it has no bytes.
    first_keeper: Snapshot<K>,
}

impl<K: Keeper> Model for Hub<K> {
    ghost use Rattle.std.specs.Prelude.{◌≡◌, length};
    ghost use Rattle.dav_machine.specs.Hubs.{HubState, IsHubOf, entries_by_events};
    ghost use Rattle.dav_machine.specs.Presents.{state_of};

    ghost Value = { HubState K };

    ghost view = { λ h. record {
      opening = state_of h.opening.value;
      trees = h.present.trees;
      rules = h.present.rules;
      locks = h.present.locks;
      history = entries_by_events h.history.items h.names.items;
      first_keeper = h.first_keeper.value;
      keeper = h.keeper;
    } };

    // As yet nothing is done, and the keeper is as it was.
    ghost invariant = { λ h.
        (length h.names.items ≡ length h.history.items)
        × (h.keeper ≡ h.first_keeper.value)
        × IsHubOf (state_of h.opening.value) (state_of h.present) (entries_by_events h.history.items h.names.items)
        (K.faults h.first_keeper.value) (K.faults h.keeper) };
}

impl<K: Keeper> Hub<K> {
    /// A hub over these trees, with an empty history. The policy has to be one for the trees' name.
    ///
    /// # Errors
    /// Want of memory gives the keeper back, as it was.
    pub fn new(alloc: Global, trees: Trees, policy: Policy, keeper: K) -> Result<Hub<K>, K>
        requires { policy.name ≡ trees.name }
        ensures { MatchResult result (λ hub. hub ≡ new_hub trees policy keeper) (λ back. back ≡ keeper) }
    {
        let present = match Present::of(alloc, trees, policy) {
            Ok(present) => present,
            Err(NoMemory) => return Err(keeper),
        };
        let opening = Snapshot::of(&present);
        let first_keeper = Snapshot::of(&keeper);
        Ok(Hub {
            alloc,
            present,
            opening,
            history: Vec::new(alloc),
            names: Vec::new(alloc),
            keeper,
            first_keeper,
        })
    }

    /// Answers a call by the state at the end of the history, and adds one entry of the call's own to
    /// it, or none. The name of a user who is logged in has to be one of the users file's grammar. As yet
    /// no request changes anything, and nothing is kept.
    pub fn act(&mut self, call: &Call) -> Answer
        requires named { IsNamed call.now.request.login }
        ensures acted { Acted self.old.opening self.old.history call.now result self.new.history }
        ensures opening { self.new.opening ≡ self.old.opening }
        ensures first { self.new.first_keeper ≡ self.old.first_keeper }
        ensures same { self.new ≡ self.old }
    {
        self.answer(call)
    }

    /// The answer to a call that changes nothing.
    #[tactic(auto, using(crate::proofs::Acting::answered))]
    fn answer(&self, call: &Call) -> Answer
        ensures { Acted self.now.opening self.now.history call.now result self.now.history }
    {
        self.learn();
        Answer {
            bytes: self.outgoing(call),
            front: self.front(),
            own: false,
        }
    }

    /// How many events the history has.
    pub fn front(&self) -> u64
        ensures count { result ≡ length self.now.history }
        ensures bound { length self.now.history < 2 ^ 63 }
    {
        self.history.len() as u64
    }

    /// What holds of each hub, which contracts don't see by themselves: the state is that which the
    /// history makes of the opening one. As long as no request changes anything, the keeper is as it was.
    pub fn learn(&self)
        ensures holds { IsHubOf self.now.opening (present_state self.now) self.now.history
            (K.faults self.now.first_keeper) (K.faults self.now.keeper) }
        ensures untouched { self.now.keeper ≡ self.now.first_keeper }
    {
        let _count = self.history.len();
    }

    /// The bytes of the reply in the state at the end of the history.
    fn outgoing(&self, call: &Call) -> Outgoing
        ensures { RepliesOnly (present_state self.now) call.now result }
    {
        let request = &call.request;
        let reply = match reply_to(self.alloc, &self.present, request) {
            Ok(reply) => reply,
            Err(NoMemory) => return Outgoing::NoMemory,
        };
        match reply_bytes(self.alloc, &reply, is_head(request), request.last) {
            Ok(bytes) => Outgoing::Bytes(bytes),
            Err(NoMemory) => Outgoing::NoMemory,
        }
    }

    /// What was done since the hub began, in order.
    pub fn history(&self) -> &[Event]
        ensures { result.now ≡ events_of self.now.history }
    {
        self.history.as_slice()
    }

    /// The trees as they are now.
    pub fn trees(&self) -> &Trees
        ensures { result.now ≡ self.now.trees }
    {
        self.present.trees()
    }

    /// Gives the trees and the keeper back.
    pub fn end(self) -> (Trees, K)
        ensures trees { result.0 ≡ self.trees }
        ensures keeper { result.1 ≡ self.keeper }
    {
        let Hub {
            alloc: _,
            present,
            opening: _,
            history: _,
            names: _,
            keeper,
            first_keeper: _,
        } = self;
        (present.into_trees(), keeper)
    }
}
