use base64::engine::general_purpose::STANDARD;
use dsv_base::Field;
use http_front::{Front, Login, Next, Request, Users};
use row_files::{Answer, Given};
use std::alloc::Global;

/// Feeds a piece.
pub fn feed(front: &mut Front, piece: &[u8], out: &mut Answer) {
    if front.feed(piece).is_err() {
        out.give_up();
    }
}

/// Writes an answer in a word, and where it is.
pub fn put_next(next: &Next, out: &mut Answer) {
    match next {
        Next::Request(_) => out.put(b"request"),
        Next::More => out.put(b"more"),
        Next::BadMessage { at } => {
            out.put(b"bad at ");
            out.put_number(*at);
        }
        Next::HeadTooLarge => out.put(b"head too large"),
        Next::BodyTooLarge => out.put(b"body too large"),
        Next::NoMemory => out.give_up(),
    }
}

/// The last request of the pieces in the columns, each fed after the requests before it were taken.
pub fn request_in(users: &Users, given: &Given<'_>) -> Option<Request> {
    let mut front = Front::new(given.alloc);
    let mut found = None;
    'pieces: for piece in given.columns() {
        found = request_after(&mut front, users, piece.as_slice(), found);
    }
    found
}

/// The last request after this piece: that of before, where none comes.
fn request_after(
    front: &mut Front,
    users: &Users,
    piece: &[u8],
    before: Option<Request>,
) -> Option<Request> {
    if front.feed(piece).is_err() {
        return None;
    }
    let mut found = before;
    'answers: for _ in 0..=piece.len() {
        match front.next(users) {
            Next::Request(request) => found = Some(request),
            _ => break,
        }
    }
    found
}

/// A request's method, target, fields, login and body.
pub fn put_request(request: &Request, out: &mut Answer) {
    out.put(request.method.get());
    out.put(b" | ");
    out.put(request.target.get());
    out.put(b" |");
    put_fields(request.fields.get(), out);
    out.put(b" | ");
    put_login(&request.login, out);
    out.put(b" | ");
    out.put(request.body.get());
}

fn put_fields(fields: &[Field], out: &mut Answer) {
    'fields: for field in fields {
        out.put(b" ");
        out.put(field.name.get());
        out.put(b": ");
        out.put(field.value.get());
        out.put(b";");
    }
}

/// Who a request comes from.
pub fn put_login(login: &Login, out: &mut Answer) {
    match login {
        Login::Nobody => out.put(b"nobody"),
        Login::User(person) => {
            out.put(b"user ");
            out.put_number(u64::from(person.number));
            out.put(b" ");
            out.put(person.name.get());
        }
        Login::Wrong => out.put(b"wrong"),
    }
}

/// Who logs in with each pair NAME:PASSWORD.
pub fn put_logins(users: &Users, given: &Given<'_>, out: &mut Answer) {
    out.put(b"read");
    'pairs: for place in 1..given.columns().len() {
        out.put(b" | ");
        put_login_by(users, given.alloc, given.bytes(place), out);
    }
}

fn put_login_by(users: &Users, alloc: Global, pair: &[u8], out: &mut Answer) {
    match STANDARD.encode(alloc, pair) {
        Ok(token) => put_login_of(users, alloc, token.as_bytes(), out),
        Err(_) => out.give_up(),
    }
}

fn put_login_of(users: &Users, alloc: Global, token: &[u8], out: &mut Answer) {
    let mut front = Front::new(alloc);
    feed(&mut front, b"GET / HTTP/1.1\r\nAuthorization: Basic ", out);
    feed(&mut front, token, out);
    feed(&mut front, b"\r\n\r\n", out);
    put_login_in(&front.next(users), out);
}

fn put_login_in(next: &Next, out: &mut Answer) {
    match next {
        Next::Request(request) => put_login(&request.login, out),
        _ => put_next(next, out),
    }
}
