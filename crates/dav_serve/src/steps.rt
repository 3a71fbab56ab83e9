ghost use Rattle.std.specs.Prelude.{◌≡◌, ◌<◌, ◌≤◌, length, true, false};
ghost use Rattle.dsv_outside.specs.Causes.{HasCause};
ghost use Rattle.http_front.specs.declared.phase.Phase.TheVariants.{Open};
ghost use Rattle.http_front.specs.Logins.{IsNamed};
ghost use Rattle.dav_replies.specs.Refusals.{refusal_bytes};
ghost use Rattle.dav_replies.specs.declared.client.Client.TheVariants.{Plain};
ghost use Rattle.dav_machine.specs.Talks.{output_of};
ghost use Rattle.dav_serve.specs.Steps.{most_piece_bytes, has_read_fault, has_write_fault, SendSays, AnswerSays, ReceiveSays, StepSays};

use dav_machine::{Call, Outgoing, Turn, client_of, is_head};
use dav_replies::{Client, Refusal, no_memory_bytes, refusal_bytes};
use dsv_outside::{Clock, Got, Put, ServeEnd, Sink, Source};
use http_front::{Front, Next, Request, Users};
use std::alloc::Global;

/// Takes one step: answers the front's next request, refuses its next message, or reads a piece into
/// it. It gives the end where the connection is to end.
pub(crate) fn step<T: Turn, S: Source, K: Sink, C: Clock>(
    alloc: Global,
    turn: &mut T,
    source: &mut S,
    sink: &mut K,
    clock: &mut C,
    users: &Users,
    front: &mut Front,
    piece: &mut [u8],
) -> Option<ServeEnd>
    requires open { front.old.phase ≡ Open }
    requires room { 0 < length piece.old }
    requires few { length piece.old ≤ most_piece_bytes }
    ensures says { StepSays (T.opening turn.old) (T.pass turn.old) users.now front.old front.new
        (record {
          history = T.front turn.old;
          left = S.left source.old;
          over = S.over source.old;
          taken = K.taken sink.old;
          readings = C.readings clock.old;
        })
        (record {
          history = T.front turn.new;
          left = S.left source.new;
          over = S.over source.new;
          taken = K.taken sink.new;
          readings = C.readings clock.new;
        })
        result }
    ensures opening { T.opening turn.new ≡ T.opening turn.old }
    ensures pass { T.pass turn.new ≡ T.pass turn.old }
    ensures origin { T.origin turn.new ≡ T.origin turn.old }
    ensures piece { length piece.new ≡ length piece.old }
    ensures read { HasCause (S.faults source.old) (S.faults source.new) (has_read_fault result) }
    ensures written { HasCause (K.faults sink.old) (K.faults sink.new) (has_write_fault result) }
{
    match front.next(users) {
        Next::Request(request) => answer(turn, sink, clock, request),
        Next::More => receive(source, front, piece),
        Next::BadMessage { at: _ } => refuse(alloc, sink, &Refusal::BadMessage),
        Next::HeadTooLarge => refuse(alloc, sink, &Refusal::HeadTooLarge),
        Next::BodyTooLarge => refuse(alloc, sink, &Refusal::BodyTooLarge),
        Next::NoMemory => Some(ServeEnd::NoMemory),
    }
}

/// Answers a request: reads the clock, asks the turn, and puts the reply.
fn answer<T: Turn, K: Sink, C: Clock>(
    turn: &mut T,
    sink: &mut K,
    clock: &mut C,
    request: Request,
) -> Option<ServeEnd>
    requires named { IsNamed request.login }
    ensures says { AnswerSays (T.opening turn.old) (T.pass turn.old) request
        (record { history = T.front turn.old; taken = K.taken sink.old; readings = C.readings clock.old })
        (record { history = T.front turn.new; taken = K.taken sink.new; readings = C.readings clock.new })
        result }
    ensures opening { T.opening turn.new ≡ T.opening turn.old }
    ensures pass { T.pass turn.new ≡ T.pass turn.old }
    ensures origin { T.origin turn.new ≡ T.origin turn.old }
    ensures cause { HasCause (K.faults sink.old) (K.faults sink.new) (has_write_fault result) }
{
    let call = Call {
        pass: turn.pass(),
        request,
        moment: clock.now(),
    };
    let answer = turn.act(&call);
    send(
        sink,
        output_of(&call.request, &answer.bytes),
        call.request.last,
    )
}

/// What is put for an answer.
fn output_of<'a>(request: &Request, outgoing: &'a Outgoing) -> &'a [u8]
    ensures { result.now ≡ output_of request.now outgoing.now }
{
    match outgoing {
        Outgoing::Bytes(bytes) => bytes.get(),
        Outgoing::NoMemory => no_memory_bytes(client_of(request), is_head(request), request.last),
    }
}

/// Tells a refusal that closes the connection, in the same bytes to every client.
fn refuse<K: Sink>(alloc: Global, sink: &mut K, refusal: &Refusal) -> Option<ServeEnd>
    ensures says { SendSays true (refusal_bytes Plain refusal.now false true)
        (K.taken sink.old) (K.taken sink.new) result }
    ensures cause { HasCause (K.faults sink.old) (K.faults sink.new) (has_write_fault result) }
{
    match refusal_bytes(alloc, Client::Plain, refusal, false, true) {
        Ok(bytes) => send(sink, bytes.get(), true),
        Err(_) => Some(ServeEnd::NoMemory),
    }
}

/// Puts a reply, in one call. The last one closes the connection.
fn send<K: Sink>(sink: &mut K, reply: &[u8], last: bool) -> Option<ServeEnd>
    ensures says { SendSays last reply.now (K.taken sink.old) (K.taken sink.new) result }
    ensures cause { HasCause (K.faults sink.old) (K.faults sink.new) (has_write_fault result) }
{
    match sink.put(reply) {
        Put::Done if last => Some(ServeEnd::Closed),
        Put::Done => None,
        Put::Failed => Some(ServeEnd::WriteFault),
        Put::NoMemory => Some(ServeEnd::NoMemory),
    }
}

/// Reads a piece and feeds it to the front.
fn receive<S: Source>(source: &mut S, front: &mut Front, piece: &mut [u8]) -> Option<ServeEnd>
    requires room { 0 < length piece.old }
    requires few { length piece.old ≤ most_piece_bytes }
    ensures says { ReceiveSays front.old front.new
        (S.left source.old) (S.left source.new) (S.over source.new) result }
    ensures piece { length piece.new ≡ length piece.old }
    ensures cause { HasCause (S.faults source.old) (S.faults source.new) (has_read_fault result) }
{
    match source.read(piece) {
        Got::Bytes(count) => match front.feed(&piece[..count]) {
            Ok(()) => None,
            Err(_) => Some(ServeEnd::NoMemory),
        },
        Got::End if front.idle() => Some(ServeEnd::Ended),
        Got::End => Some(ServeEnd::BrokeOff),
        Got::Failed => Some(ServeEnd::ReadFault),
    }
}
