ghost use Rattle.std.specs.Prelude.{◌≡◌, ◌++◌, [], IfOk, OnOk, codes, unwrap_or, if◌then◌else◌};
ghost use Rattle.std.specs.List.{flat_map};
ghost use Rattle.dav_replies.specs.Tables.{reason_of};
ghost use Rattle.dav_replies.specs.Replies.{IsWritable, reply_text, status_line, field_line, field_text, length_line, last_line};

use crate::tables::reason_of;
use dsv_base::{Bytes, Field, NoMemory, Reply, decimal_text, push_decimal};
use std::alloc::Global;

/// Room for a head, in bytes; a longer one grows.
const HEAD_ROOM: usize = 512;

/// The bytes of a reply (RFC 9112, section 4).
///
/// `head_only` leaves out the content, as a reply to HEAD does; `last` tells that the connection
/// ends. The status has to be one that has a reason phrase, and content stands only in a reply that
/// says so, never in one with status 204. The one error is want of memory.
#[tactic(auto, unfolding(crate::specs::Replies::reply_text))]
pub fn reply_bytes(
    alloc: Global,
    reply: &Reply,
    head_only: bool,
    last: bool,
) -> Result<Bytes, NoMemory>
    requires writable { IsWritable reply.now }
    ensures { IfOk result (λ bytes. bytes ≡ reply_text reply.now head_only last) }
{
    let content = reply.content.get();
    let room = if head_only { 0 } else { content.len() };
    let mut out = Vec::with_capacity(alloc, room.saturating_add(HEAD_ROOM))?;
    put_status_line(&mut out, reply.status)?;
    put_fields(&mut out, reply.fields.get())?;
    put_length_line(alloc, &mut out, reply.status, content.len())?;
    put_last_line(&mut out, last)?;
    out.extend_from_slice(b"\r\n")?;
    put_content(&mut out, content, head_only)?;
    Ok(Bytes::from_vec(out))
}

fn put_status_line(out: &mut Vec<u8>, status: u16) -> Result<(), NoMemory>
    ensures { OnOk result (out.new.items ≡ out.old.items ++ status_line status) }
{
    out.extend_from_slice(b"HTTP/1.1 ")?;
    push_decimal(out, u64::from(status))?;
    out.extend_from_slice(b" ")?;
    put_reason(out, status)?;
    out.extend_from_slice(b"\r\n")?;
    Ok(())
}

fn put_reason(out: &mut Vec<u8>, status: u16) -> Result<(), NoMemory>
    ensures { OnOk result (out.new.items ≡ out.old.items ++ unwrap_or (reason_of status) []) }
{
    if let Some(reason) = reason_of(status) {
        out.extend_from_slice(reason)?;
    }
    Ok(())
}

fn put_fields(out: &mut Vec<u8>, fields: &[Field]) -> Result<(), NoMemory>
    ensures { OnOk result (out.new.items ≡ out.old.items ++ flat_map field_text fields.now) }
{
    'fields: for field in fields {
        put_field(out, field.name.get(), field.value.get())?;
    }
    Ok(())
}

fn put_field(out: &mut Vec<u8>, name: &[u8], value: &[u8]) -> Result<(), NoMemory>
    ensures { OnOk result (out.new.items ≡ out.old.items ++ field_line name.now value.now) }
{
    out.extend_from_slice(name)?;
    out.extend_from_slice(b": ")?;
    out.extend_from_slice(value)?;
    out.extend_from_slice(b"\r\n")?;
    Ok(())
}

/// The length of the content, in bytes: a reply 204 has none, and doesn't tell one.
fn put_length_line(
    alloc: Global,
    out: &mut Vec<u8>,
    status: u16,
    length: usize,
) -> Result<(), NoMemory>
    ensures { OnOk result (out.new.items ≡ out.old.items ++ length_line status length) }
{
    if status == 204 {
        return Ok(());
    }
    let number = decimal_text(alloc, length as u64)?;
    put_field(out, b"Content-Length", number.get())
}

fn put_last_line(out: &mut Vec<u8>, last: bool) -> Result<(), NoMemory>
    ensures { OnOk result (out.new.items ≡ out.old.items ++ last_line last) }
{
    if last {
        put_field(out, b"Connection", b"close")?;
    }
    Ok(())
}

fn put_content(out: &mut Vec<u8>, content: &[u8], head_only: bool) -> Result<(), NoMemory>
    ensures { OnOk result (out.new.items ≡ out.old.items ++ (if head_only then [] else content.now)) }
{
    if !head_only {
        out.extend_from_slice(content)?;
    }
    Ok(())
}
