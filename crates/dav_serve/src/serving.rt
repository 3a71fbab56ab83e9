ghost use Rattle.std.specs.Prelude.{◌≡◌};
ghost use Rattle.dsv_outside.specs.Causes.{HasCause};
ghost use Rattle.dav_serve.specs.Serves.{Serves, is_read_fault, is_write_fault};

use crate::steps::step;
use dav_machine::Turn;
use dsv_outside::{Clock, ServeEnd, Sink, Source};
use http_front::{Front, Users};
use std::alloc::Global;

/// The most bytes that are read at once.
const MOST_PIECE_BYTES: usize = 65_536;

/// Serves a connection to its end: takes requests from the source, asks the turn for each reply at the
/// moment of one reading of the clock, and puts it into the sink before it asks for the next.
///
/// It ends as [`ServeEnd`] says. A message that isn't of HTTP/1.0 or HTTP/1.1, or is too large, is
/// answered by a refusal that closes the connection, and nothing after it is read (RFC 9112, section
/// 2.2 and section 9.6). The source's end ends the connection well only where no request has begun.
pub fn serve_connection<T: Turn, S: Source, K: Sink, C: Clock>(
    alloc: Global,
    turn: &mut T,
    source: &mut S,
    sink: &mut K,
    clock: &mut C,
    users: &Users,
) -> ServeEnd
    ensures says { Serves (T.opening turn.old) (T.pass turn.old) users.now
        (record {
          history = T.front turn.old;
          left = S.left source.old;
          over = S.over source.old;
          taken = K.taken sink.old;
          readings = C.readings clock.old;
        })
        (record {
          history = T.front turn.new;
          left = S.left source.new;
          over = S.over source.new;
          taken = K.taken sink.new;
          readings = C.readings clock.new;
        })
        result }
    ensures opening { T.opening turn.new ≡ T.opening turn.old }
    ensures pass { T.pass turn.new ≡ T.pass turn.old }
    ensures origin { T.origin turn.new ≡ T.origin turn.old }
    ensures read { HasCause (S.faults source.old) (S.faults source.new) (is_read_fault result) }
    ensures written { HasCause (K.faults sink.old) (K.faults sink.new) (is_write_fault result) }
{
    let mut piece = match vec![in alloc; 0u8; MOST_PIECE_BYTES] {
        Ok(piece) => piece,
        Err(_) => return ServeEnd::NoMemory,
    };
    let mut front = Front::new(alloc);
    'steps: loop {
        match step(
            alloc,
            turn,
            source,
            sink,
            clock,
            users,
            &mut front,
            piece.as_mut_slice(),
        ) {
            Some(end) => return end,
            None => {}
        }
    }
}
