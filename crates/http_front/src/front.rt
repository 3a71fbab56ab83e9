ghost use Rattle.std.specs.Prelude.{◌≡◌, ◌≤◌, ◌+◌, ℕ, List, length, OnOk, OnErr, IfOk};
ghost use Rattle.http_front.specs.Advances.{IsAlways, request_with};
ghost use Rattle.http_front.specs.Answers.{NextSays, ComesNamed, phase_after, refusal_next};
ghost use Rattle.http_front.specs.Fronts.{new_front, fed, given, stopped};
ghost use Rattle.http_front.specs.FrontInside.{IsFew, unread};
ghost use Rattle.http_front.specs.Logins.{IsNamed};
ghost use Rattle.http_front.specs.Limits.{most_message_bytes};
ghost use Rattle.http_front.specs.Messages.{is_last_of};
ghost use Rattle.http_front.specs.Outcomes.{Whole, Refused};
ghost use Rattle.http_front.specs.Sections.{is_idle};
ghost use Rattle.http_front.specs.declared.phase.Phase.TheVariants.{Open};
ghost use Rattle.http_front.specs.declared.user.User.{User};

use crate::advance::{Advance, Progress};
use crate::advancing::advance;
use crate::authorization::login_of;
use crate::byte_place::BytePlace;
use crate::connection::is_last;
use crate::head::Head;
use crate::message_fault::MessageFault;
use crate::next::Next;
use crate::phase::Phase;
use crate::request::Request;
use crate::scan::{Scan, is_idle};
use crate::slices::{drop_front, rest_from};
use crate::users::Users;
use dsv_base::{Bytes, Field, NoMemory};
use std::alloc::Global;
use std::marker::Model;
use std::mem;

/// The most requests that a connection may have.
const MOST_REQUESTS: u32 = 1_000_000;

/// The bytes of a connection, which come in pieces, on their way to requests (RFC 9112). Contracts
/// see it as how many requests were given, the bytes that they had, the bytes that were fed and not
/// given, and what still comes.
#[derive(Debug, Drop)]
pub struct Front {
    alloc: Global,
    number: u32,
    at: u64,
    bytes: Vec<u8>,
    start: usize,
    phase: Phase,
    progress: Progress,
}

impl Model for Front {
    ghost use Rattle.std.specs.Prelude.{drop};
    ghost use Rattle.http_front.specs.Fronts.{FrontState};
    ghost use Rattle.http_front.specs.FrontInside.{FrontHolds};

    ghost Value = { FrontState };

    ghost view = { λ f.
        record { number = f.number; at = f.at; rest = drop f.start f.bytes.items; phase = f.phase } };

    ghost invariant = { λ f. FrontHolds f.number f.at f.bytes.items f.start f.phase f.progress };
}

impl Front {
    /// A front that was fed nothing. It takes no memory.
    pub fn new(alloc: Global) -> Front
        ensures { result ≡ new_front }
    {
        Front {
            alloc,
            number: 0,
            at: 0,
            bytes: Vec::new(alloc),
            start: 0,
            phase: Phase::Open,
            progress: unread(),
        }
    }

    /// Adds a piece at the end, where requests may still come; else the piece is dropped. Its one
    /// error is want of memory, and leaves the front as it was.
    pub fn feed(&mut self, piece: &[u8]) -> Result<(), NoMemory>
        ensures ok { OnOk result (self.new ≡ fed self.old piece.now) }
        ensures err { OnErr result (self.new ≡ self.old) }
    {
        if let Phase::Open = self.phase {
            self.bytes.extend_from_slice(piece)?;
        }
        Ok(())
    }

    /// The request at the front, or what its bytes are else.
    ///
    /// A request is taken out of the front. Who it comes from is said by its field Authorization
    /// and `users` (RFC 7617), whose names are of the users grammar. It is the connection's last
    /// where it is of HTTP/1.0, has `close` among the words of its Connection fields, or is the
    /// 1,000,000th: then all later bytes are dropped, and each later answer is [`Next::More`].
    ///
    /// [`Next::More`] comes exactly where the rest is a part of a message that no limit and no
    /// rule of the grammar refuses yet, or where the last request was given. A refusal comes as
    /// soon as it is certain, whatever may follow, and then at each later call. Want of memory
    /// leaves the front as it was.
    pub fn next(&mut self, users: &Users) -> Next
        ensures says { NextSays users.now self.old self.new result }
        ensures named { ComesNamed result }
    {
        match self.phase {
            Phase::Finished => Next::More,
            Phase::Stopped(why) => refusal_next(why, self.at),
            Phase::Open => self.next_open(users),
        }
    }

    /// Whether the bytes that were fed and not given are line ends (CRLF or LF) alone, or none. As
    /// many as 16,384 are no such rest, but too large a head.
    pub fn idle(&self) -> bool
        ensures { result ≡ is_idle self.now.rest }
    {
        is_idle(rest_from(self.bytes.as_slice(), self.start))
    }

    fn next_open(&mut self, users: &Users) -> Next
        requires { self.old.phase ≡ Open }
        ensures says { NextSays users.now self.old self.new result }
        ensures named { ComesNamed result }
    {
        let progress = mem::replace(&mut self.progress, unread());
        let rest = rest_from(self.bytes.as_slice(), self.start);
        match advance(self.alloc, rest, progress) {
            Ok(Advance::Done(head, body, len)) => self.give(users, head, body, len),
            Ok(Advance::Needs(progress)) => {
                self.progress = progress;
                Next::More
            }
            Ok(Advance::Rejects(why)) => self.stop(why),
            Err(_) => Next::NoMemory,
        }
    }

    /// Gives the request with this head and this body, which has so many bytes.
    fn give(&mut self, users: &Users, head: Head, body: Bytes, len: usize) -> Next
        requires open { self.old.phase ≡ Open }
        requires first { IsAlways self.old.rest (λ users number. Whole (request_with users number head body) len) }
        ensures says { NextSays users.now self.old self.new result }
        ensures named { ComesNamed result }
    {
        match make_request(self.alloc, users, self.number, head, body) {
            Ok(request) => {
                let phase = phase_after(&request);
                self.pass(len, phase);
                Next::Request(request)
            }
            Err(_) => Next::NoMemory,
        }
    }

    /// Leaves a request of so many bytes behind, and all bytes where it was the last.
    fn pass(&mut self, len: usize, phase: Phase)
        requires open { self.old.phase ≡ Open }
        requires within { len ≤ length self.old.rest }
        requires small { len ≤ most_message_bytes }
        requires few { IsFew phase (self.old.number + 1) }
        ensures { self.new ≡ given len phase self.old }
    {
        self.number += 1;
        self.at += len as u64;
        self.start = match phase {
            Phase::Finished => self.bytes.len(),
            Phase::Open | Phase::Stopped(_) => self.start + len,
        };
        self.phase = phase;
        self.progress = unread();
        if self.start >= self.bytes.len() - self.start {
            drop_front(&mut self.bytes, self.start);
            self.start = 0;
        }
    }

    /// Refuses the message at the front.
    fn stop(&mut self, why: MessageFault) -> Next
        requires open { self.old.phase ≡ Open }
        requires first { IsAlways self.old.rest (λ users number. Refused why) }
        ensures says { (users : List User) → NextSays users self.old self.new result }
        ensures named { ComesNamed result }
    {
        self.phase = Phase::Stopped(why);
        refusal_next(why, self.at)
    }
}

/// Nothing was read of a message.
fn unread() -> Progress
    ensures { result ≡ unread }
{
    Progress::InHead(Scan {
        at: 0,
        place: BytePlace::Before,
    })
}

fn refusal_next(why: MessageFault, at: u64) -> Next
    ensures value { result ≡ refusal_next why at }
    ensures named { ComesNamed result }
{
    match why {
        MessageFault::BadMessage => Next::BadMessage { at },
        MessageFault::HeadTooLarge => Next::HeadTooLarge,
        MessageFault::BodyTooLarge => Next::BodyTooLarge,
    }
}

fn phase_after(request: &Request) -> Phase
    ensures { result ≡ phase_after request.now }
{
    if request.last {
        Phase::Finished
    } else {
        Phase::Open
    }
}

/// The request with this head and this body, after so many others. The one error is want of memory.
fn make_request(
    alloc: Global,
    users: &Users,
    number: u32,
    head: Head,
    body: Bytes,
) -> Result<Request, NoMemory>
    ensures value { IfOk result (λ r. r ≡ request_with users.now number head body) }
    ensures named { IfOk result (λ r. IsNamed r.login) }
{
    let login = login_of(alloc, users, head.fields.get())?;
    let last = is_last_of(number, head.minor, head.fields.get());
    Ok(Request {
        method: head.method,
        target: head.target,
        fields: head.fields,
        login,
        body,
        last,
    })
}

/// Whether the request after so many others is the last of its connection.
fn is_last_of(number: u32, minor: u8, fields: &[Field]) -> bool
    ensures { result ≡ is_last_of number minor fields.now }
{
    is_last(minor, fields) || u64::from(number) + 1 == u64::from(MOST_REQUESTS)
}
