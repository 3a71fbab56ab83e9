ghost use Rattle.std.specs.Prelude.{IfSome, IsTrue};
ghost use Rattle.dav_replies.specs.Tables.{has_reason};

use crate::refusals::refusal_of;
use dav_replies::{Client, Field, Reply, no_memory_bytes, refusal_bytes, reply_bytes};
use dsv_base::{Bytes, List, cut_at, without_front};
use row_files::{Answer, Given};

/// The tables on the bytes of replies. The words `head` and `last` in the last column say that the reply
/// is to HEAD, and to the connection's last request; the word `guest`, that it is one to a client of
/// Subversion.
#[derive(Clone, Copy)]
pub enum ReplyTable {
    Refusal,
    NoMemory,
    Reply,
}

/// Answers a row of such a table.
pub fn answer_reply(table: ReplyTable, given: &Given<'_>, out: &mut Answer) {
    match table {
        ReplyTable::Refusal => put_refusal(given, out),
        ReplyTable::NoMemory => put_no_memory(given.text(0), out),
        ReplyTable::Reply => put_reply(given, out),
    }
}

/// A refusal in words, and to what it is the reply.
fn put_refusal(given: &Given<'_>, out: &mut Answer) {
    let to = given.text(1);
    match refusal_of(given.alloc, given.text(0), given.bytes(0)) {
        Some(refusal) => out.put_made(refusal_bytes(
            given.alloc,
            client_in(to),
            &refusal,
            to.contains("head"),
            to.contains("last"),
        )),
        None => out.give_up(),
    }
}

fn put_no_memory(to: &str, out: &mut Answer) {
    out.put(no_memory_bytes(client_in(to), to.contains("head"), to.contains("last")));
}

/// The client that a reply is to.
fn client_in(to: &str) -> Client {
    if to.contains("guest") {
        Client::Guest
    } else {
        Client::Plain
    }
}

/// A status, a field, the content, and to what it is the reply.
fn put_reply(given: &Given<'_>, out: &mut Answer) {
    let Some(status) = status_of(given.text(0)) else {
        return out.give_up();
    };
    let Some(fields) = fields_of(given) else {
        return out.give_up();
    };
    match Vec::from_slice(given.alloc, given.bytes(2)) {
        Ok(content) => put_reply_of(status, fields, content, given, out),
        Err(_) => out.give_up(),
    }
}

/// The status that a word is.
fn status_of(word: &str) -> Option<u16>
    ensures { IfSome result (λ status. IsTrue (has_reason status)) }
{
    match word {
        "200" => Some(200),
        "201" => Some(201),
        "204" => Some(204),
        "207" => Some(207),
        _ => None,
    }
}

fn fields_of(given: &Given<'_>) -> Option<List<Field>> {
    let field = field_of(given)?;
    Some(List::of(vec![in given.alloc; field].ok()?))
}

fn field_of(given: &Given<'_>) -> Option<Field> {
    let (name, behind) = cut_at(given.bytes(1), b':')?;
    let name = Bytes::of(given.alloc, name).ok()?;
    let value = Bytes::of(given.alloc, without_front(behind)).ok()?;
    Some(Field { name, value })
}

fn put_reply_of(
    status: u16,
    fields: List<Field>,
    content: Vec<u8>,
    given: &Given<'_>,
    out: &mut Answer,
)
    requires { IsTrue (has_reason status) }
{
    let has_content = !content.is_empty();
    if has_content && status == 204 {
        return out.give_up();
    }
    let reply = Reply {
        status,
        fields,
        content: Bytes::from_vec(content),
        has_content,
    };
    let to = given.text(3);
    out.put_made(reply_bytes(
        given.alloc,
        &reply,
        to.contains("head"),
        to.contains("last"),
    ));
}
