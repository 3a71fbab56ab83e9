use crate::reading::users_of;
use crate::requests::{feed, put_login, put_logins, put_next, put_request, request_in};
use http_front::{Front, Next, Request, Users};
use row_files::{Answer, Given};
use std::alloc::Global;

/// The tables on messages, users and logins.
#[derive(Clone, Copy)]
pub enum MessageTable {
    Messages,
    Pieces,
    Request,
    Last,
    Login,
    Users,
}

/// Answers a row of such a table.
pub fn answer_message(table: MessageTable, given: &Given<'_>, out: &mut Answer) {
    match table {
        MessageTable::Users => put_users(given, out),
        _ => match users_in(given) {
            Some(users) => answer_of_users(table, &users, given, out),
            None => out.give_up(),
        },
    }
}

/// A users file, and pairs NAME:PASSWORD: who logs in with each, or why the file isn't taken.
fn put_users(given: &Given<'_>, out: &mut Answer) {
    match users_of(given.alloc, given.bytes(0)) {
        Ok(users) => put_logins(&users, given, out),
        Err(fault) => out.put_shown(format!(in given.alloc; "{fault}")),
    }
}

/// The users of the table.
fn users_in(given: &Given<'_>) -> Option<Users> {
    let file = given.setting("users")?;
    users_of(given.alloc, file.as_slice()).ok()
}

fn answer_of_users(table: MessageTable, users: &Users, given: &Given<'_>, out: &mut Answer) {
    match table {
        MessageTable::Messages => put_messages(users, given, out),
        MessageTable::Pieces => put_pieces(users, given, out),
        _ => answer_of_request(table, users, given, out),
    }
}

/// Answers a row on the last request of the pieces in the columns.
fn answer_of_request(table: MessageTable, users: &Users, given: &Given<'_>, out: &mut Answer) {
    match request_in(users, given) {
        Some(request) => put_of_request(table, &request, out),
        None => out.put(b"no request"),
    }
}

fn put_of_request(table: MessageTable, request: &Request, out: &mut Answer) {
    match table {
        MessageTable::Last => out.put_word(request.last),
        MessageTable::Login => put_login(&request.login, out),
        _ => put_request(request, out),
    }
}

/// How many requests the bytes have and how they end; and the same byte by byte, if that differs.
fn put_messages(users: &Users, given: &Given<'_>, out: &mut Answer) {
    let bytes = given.bytes(0);
    let whole = messages_by(users, given.alloc, bytes, bytes.len());
    let cut = messages_by(users, given.alloc, bytes, 1);
    match (whole, cut) {
        (Some(whole), Some(cut)) => put_both(whole.as_slice(), cut.as_slice(), out),
        _ => out.give_up(),
    }
}

fn put_both(whole: &[u8], cut: &[u8], out: &mut Answer) {
    out.put(whole);
    if whole != cut {
        out.put(b", byte by byte ");
        out.put(cut);
    }
}

/// How many requests were taken, and whether the last of them ends the connection.
#[derive(Clone, Copy)]
struct Taken {
    requests: u64,
    last: bool,
}

fn messages_by(users: &Users, alloc: Global, bytes: &[u8], piece: usize) -> Option<Vec<u8>> {
    let mut out = Answer::new(alloc);
    let mut front = Front::new(alloc);
    let taken = take_all(&mut front, users, bytes, piece, &mut out);
    out.put_number(taken.requests);
    out.put(b", ");
    put_end(&mut front, users, taken.last, &mut out);
    out.end()
}

/// Feeds bytes in pieces of this size, and takes the requests.
fn take_all(
    front: &mut Front,
    users: &Users,
    bytes: &[u8],
    piece: usize,
    out: &mut Answer,
) -> Taken {
    let mut taken = Taken {
        requests: 0,
        last: false,
    };
    'pieces: for part in bytes.chunks(piece.max(1)) {
        feed(front, part, out);
        take_some(front, users, bytes.len(), &mut taken);
    }
    taken
}

fn take_some(front: &mut Front, users: &Users, most: usize, taken: &mut Taken) {
    'requests: for _ in 0..most {
        if !take_one(front, users, taken) {
            break;
        }
    }
}

fn take_one(front: &mut Front, users: &Users, taken: &mut Taken) -> bool {
    match front.next(users) {
        Next::Request(request) => {
            taken.requests = taken.requests.saturating_add(1);
            taken.last = request.last;
            true
        }
        _ => false,
    }
}

fn put_end(front: &mut Front, users: &Users, last: bool, out: &mut Answer) {
    let next = front.next(users);
    put_end_of(&next, rest_word(last, front.idle()), out);
}

fn put_end_of(next: &Next, rest: &[u8], out: &mut Answer) {
    match next {
        Next::More => out.put(rest),
        _ => put_next(next, out),
    }
}

/// What is left where no request is: nothing is looked at after the last one.
fn rest_word(last: bool, idle: bool) -> &'static [u8] {
    if last {
        b"after the last"
    } else if idle {
        b"idle"
    } else {
        b"a part"
    }
}

/// What comes after each piece, up to the first answer that is no request.
fn put_pieces(users: &Users, given: &Given<'_>, out: &mut Answer) {
    let mut front = Front::new(given.alloc);
    'pieces: for place in 0..given.columns().len() {
        if place > 0 {
            out.put(b" | ");
        }
        put_piece(&mut front, users, given.bytes(place), out);
    }
}

fn put_piece(front: &mut Front, users: &Users, piece: &[u8], out: &mut Answer) {
    feed(front, piece, out);
    'answers: for _ in 0..=piece.len() {
        if !put_answer(front, users, out) {
            break;
        }
    }
}

/// Writes the next answer, and says whether it is a request.
fn put_answer(front: &mut Front, users: &Users, out: &mut Answer) -> bool {
    put_next_of_several(&front.next(users), out)
}

fn put_next_of_several(next: &Next, out: &mut Answer) -> bool {
    put_next(next, out);
    match next {
        Next::Request(_) => {
            out.put(b", ");
            true
        }
        _ => false,
    }
}
