ghost use Rattle.std.specs.Prelude.{◌≡◌, IfSome, IfOk, nat_lt, true, false};
ghost use Rattle.dsv_outside.specs.Causes.{HasCause, count_after};
ghost use Rattle.dsv_outside.specs.Doors.{Accepts, is_failed_accept};
ghost use Rattle.davsvn.specs.Doorways.{IsNewConnection, IsNewPair, door_state, pair_state};

use crate::reading::Reading;
use crate::writing::Writing;
use dsv_outside::{Accepted, Door, ServeEnd};
use std::io::{Read, Write};
use std::marker::Model;
use std::net::{OpenListener, OpenStream, Shutdown};
use std::time::Duration;
use std::{io, thread};

/// How often one call of `accept` asks the listener for a connection.
const MOST_TRIES: u32 = 6_000;

/// How long it waits after a try that failed, in milliseconds: a minute, with all tries together.
const PAUSE_MILLIS: u64 = 10;

/// How long a connection that is being closed may be silent, in milliseconds.
const LAST_MILLIS: u64 = 1_000;

/// How many pieces of it are still read, and how many bytes each has at most.
const LAST_PIECES: u32 = 32;

const LAST_PIECE_BYTES: usize = 16_384;

/// Any listener of std as a door. It tells nothing of the connections to come, and is never shut. A
/// connection that gives nothing for the time that it may be silent, or takes nothing for so long, is
/// a fault of its source or sink. Contracts see how many pairs it gave, whether one is out, and the
/// count of faults: each call of `accept` that failed is one.
#[derive(Drop)]
pub struct Listening<L, R> {
    listener: L,
    rt: R,
    silence: Duration,
    line: Option<String>,
    given: u64,
    out: bool,
    faults: u64,
}

impl<L, R> Model for Listening<L, R> {
    ghost use Rattle.davsvn.specs.AdapterStates.{ListeningState};

    ghost Value = { ListeningState };

    ghost view = { λ d. record { given = d.given; out = d.out; faults = d.faults } };
}

impl<L, R> Listening<L, R> {
    /// The listener as a door that has given nothing. A connection may be silent for `silence`, which
    /// isn't zero. The line is put to the errors as soon as a first connection is asked for: by then
    /// all is ready. `rt` has the errors, and the clock that waits between tries.
    pub fn new(listener: L, rt: R, silence: Duration, line: Option<String>) -> Listening<L, R>
        ensures { result ≡ record { given = 0; out = false; faults = 0 } }
    {
        Listening {
            listener,
            rt,
            silence,
            line,
            given: 0,
            out: false,
            faults: 0,
        }
    }

    /// Whether a call of `accept` has failed.
    pub fn has_failed(&self) -> bool
        ensures { result ≡ nat_lt 0 self.now.faults }
    {
        self.faults > 0
    }
}

impl<L: OpenListener, R: std::rt::Clock + Eprint> Door for Listening<L, R>
where
    L::Stream: Read + Write + OpenStream + Drop + Send,
{
    type S = Reading<L::Stream>;

    type K = Writing<L::Stream>;

    ghost state = { door_state };

    ghost faults = { λ d. d.faults };

    /// Waits for the next connection. A try that fails is made again, for about a minute; then the call
    /// fails.
    fn accept(&mut self) -> Accepted<Reading<L::Stream>, Writing<L::Stream>>
        requires { self.old.out ≡ false }
        ensures gives { Accepts (pair_state L.Stream.remaining) (door_state self.old) (door_state self.new) result }
        ensures cause { HasCause self.old.faults self.new.faults (is_failed_accept result) }
        ensures faults { self.new.faults ≡ count_after (is_failed_accept result) self.old.faults }
        ensures new { IsNewPair result }
    {
        if let Some(line) = self.line.take() {
            // a line that can't be put changes nothing
            let _ = self.rt.eprint(line.as_str());
        }
        match next_connection(&self.listener, &self.rt, self.silence) {
            Some((source, sink)) => {
                self.given = self.given.saturating_add(1);
                self.out = true;
                Accepted::Pair(source, sink)
            }
            None => {
                self.faults = self.faults.saturating_add(1);
                Accepted::Failed
            }
        }
    }

    /// Closes the connection. Where its last request was answered, or one was refused, the peer gets
    /// time to take the reply.
    fn back(&mut self, source: Reading<L::Stream>, sink: Writing<L::Stream>, end: ServeEnd)
        requires { self.old.out ≡ true }
        ensures given { self.new ≡ record { given = self.old.given; out = false; faults = self.old.faults } }
    {
        self.out = false;
        if let ServeEnd::Closed = end {
            close_in_stages(source.into_inner());
        }
        drop(sink);
    }
}

/// The next connection, by at most so many tries, with a pause after each that failed.
fn next_connection<L: OpenListener, R: std::rt::Clock>(
    listener: &L,
    rt: &R,
    silence: Duration,
) -> Option<(Reading<L::Stream>, Writing<L::Stream>)>
where
    L::Stream: Read + Write + OpenStream + Drop,
    ensures { IfSome result (λ pair. IsNewConnection pair.0 pair.1) }
{
    for _ in 0..MOST_TRIES {
        if let Ok((source, sink)) = connection(listener, silence) {
            return Some((source, sink));
        }
        thread::sleep(rt, Duration::from_millis(PAUSE_MILLIS));
    }
    None
}

/// One connection, whose small replies aren't held back, and which may be silent for so long.
fn connection<L: OpenListener>(
    listener: &L,
    silence: Duration,
) -> io::Result<(Reading<L::Stream>, Writing<L::Stream>)>
where
    L::Stream: Read + Write + OpenStream + Drop,
    ensures { IfOk result (λ pair. IsNewConnection pair.0 pair.1) }
{
    let (stream, _) = listener.accept()?;
    stream.set_nodelay(true)?;
    stream.set_read_timeout(Some(silence))?;
    stream.set_write_timeout(Some(silence))?;
    let other = stream.try_clone()?;
    Ok((Reading::new(stream), Writing::new(other)))
}

/// Closes a connection in stages (RFC 9112, section 9.6): it puts no more, and still reads some of what
/// the peer sends. Closed with bytes unread, the system would tell the peer of an error, and it might
/// lose the last reply.
fn close_in_stages<S: Read + OpenStream + Drop>(mut stream: S) {
    let silence = Some(Duration::from_millis(LAST_MILLIS));
    if stream.shutdown(Shutdown::Write).is_err() || stream.set_read_timeout(silence).is_err() {
        return;
    }
    let mut piece = [0u8; LAST_PIECE_BYTES];
    for _ in 0..LAST_PIECES {
        match stream.read(&mut piece) {
            Ok(count) if count > 0 => {}
            _ => return,
        }
    }
}
