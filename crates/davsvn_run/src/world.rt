use dsv_outside::{Clock, Files, Keeper, Sink, Source};
use std::marker::Model;

/// All that a run is given from outside: it is taken by value and handed back, so that a contract can
/// compare the world before and after. Contracts see the parts, and beside them what these tell.
#[derive(Drop)]
pub struct World<S: Source, K: Sink, E: Sink, C: Clock, F: Files, P: Keeper> {
    /// Where the requests come from.
    pub source: S,
    /// Where the replies go to.
    pub sink: K,
    /// Where the line of a status goes to, if it has one.
    pub errors: E,
    /// What tells the moment of each request.
    pub clock: C,
    /// The script, the rules and the users, by name.
    pub files: F,
    /// Where new revisions are kept.
    pub keeper: P,
}

impl<S: Source, K: Sink, E: Sink, C: Clock, F: Files, P: Keeper> Model for World<S, K, E, C, F, P> {
    ghost use Rattle.davsvn_run.specs.Worlds.{WorldState};

    ghost Value = { WorldState S K E C F P };

    ghost view = { λ w. record {
      source = w.source;
      sink = w.sink;
      errors = w.errors;
      clock = w.clock;
      files = w.files;
      keeper = w.keeper;
      told = record {
        left = S.left w.source;
        over = S.over w.source;
        read_faults = S.faults w.source;
        taken = K.taken w.sink;
        write_faults = K.faults w.sink;
        errors_taken = E.taken w.errors;
        error_faults = E.faults w.errors;
        readings = C.readings w.clock;
        contents = F.contents w.files;
        file_faults = F.faults w.files;
        kept = P.kept w.keeper;
        keep_faults = P.faults w.keeper;
      };
    } };
}
