ghost use Rattle.std.specs.Prelude.{None, [], ◌∷◌};
ghost use Rattle.dsv_outside.specs.Clocks.{Reads};

use dsv_base::Moment;
use dsv_outside::Clock;
use std::io;
use std::marker::Model;
use std::time::{SystemTime, UNIX_EPOCH};

/// The system's clock. It tells nothing of its readings, since nobody knows what it will read.
#[derive(Drop)]
pub struct SystemClock<R> {
    rt: R,
    last: Moment,
}

impl<R> Model for SystemClock<R> {
    ghost use Rattle.std.specs.Prelude.{ℕ};

    ghost Value = { ℕ };

    ghost view = { λ c. c.last };
}

impl<R> SystemClock<R> {
    /// The clock that `rt` reads.
    pub fn new(rt: R) -> SystemClock<R> {
        SystemClock {
            rt,
            last: Moment::of(0).unwrap(),
        }
    }
}

impl<R: std::rt::Clock> Clock for SystemClock<R> {
    ghost readings = { λ _. None };

    /// The present moment. Where the system can't tell it, or tells one past the year 9999, it is the
    /// last moment that it told, or the first of 1970.
    fn now(&mut self) -> Moment
        ensures reading { Reads None None (result ∷ []) }
    {
        if let Some(moment) = present(&self.rt) {
            self.last = moment;
        }
        self.last
    }
}

fn present<R: std::rt::Clock>(rt: &R) -> Option<Moment> {
    let Ok(time) = SystemTime::now(rt) else {
        return None;
    };
    let Ok(since_1970) = time.duration_since(UNIX_EPOCH) else {
        return None;
    };
    match u64::try_from(since_1970.as_micros()) {
        Ok(micros) => Moment::of(micros),
        Err(_) => None,
    }
}
