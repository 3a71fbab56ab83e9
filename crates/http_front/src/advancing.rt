ghost use Rattle.std.specs.Prelude.{◌≡◌, IfOk, take, drop, Some};
ghost use Rattle.http_front.specs.Advances.{IsProgress, AdvanceSays, HasHead, HasFramed};
ghost use Rattle.http_front.specs.Limits.{most_encoded_bytes, most_head_bytes};
ghost use Rattle.http_front.specs.Readings.{ReadsChunks};
ghost use Rattle.http_front.specs.Sections.{head_length};
ghost use Rattle.http_front.specs.declared.advance.Progress.TheVariants.{InHead};
ghost use Rattle.http_front.specs.declared.framing.Framing.TheVariants.{Sized, Chunked};

use crate::advance::{Advance, Progress};
use crate::chunk_step::ChunksEnd;
use crate::chunks::Chunks;
use crate::framing::Framing;
use crate::framings::framing;
use crate::head::Head;
use crate::heads::{MOST_HEADER_LINES, read_head};
use crate::message_fault::MessageFault;
use crate::scan::{Scan, header_lines, scan_section};
use crate::slices::{front_bytes, rest_from};
use dsv_base::{Bytes, NoMemory};
use std::alloc::Global;

/// The most bytes that a head may have, with the line ends in front of it.
pub(crate) const MOST_HEAD_BYTES: usize = 16_384;

/// The most bytes that a body by chunks may have, from its first size line on.
const MOST_ENCODED_BYTES: usize = 134_217_728;

/// Reads the message at the front on. The one error is want of memory.
pub(crate) fn advance(alloc: Global, bytes: &[u8], progress: Progress) -> Result<Advance, NoMemory>
    requires { IsProgress bytes.now progress }
    ensures { IfOk result (AdvanceSays bytes.now) }
{
    match progress {
        Progress::InHead(scan) => advance_head(alloc, bytes, scan),
        Progress::InBody(head, size) => advance_body(alloc, bytes, head, size),
        Progress::InChunks(head, chunks) => advance_chunks(bytes, head, chunks),
    }
}

fn advance_head(alloc: Global, bytes: &[u8], scan: Scan) -> Result<Advance, NoMemory>
    requires { IsProgress bytes.now (InHead scan) }
    ensures { IfOk result (AdvanceSays bytes.now) }
{
    let front = front_bytes(bytes, MOST_HEAD_BYTES);
    let scanned = scan_section(rest_from(front, scan.at), scan.place);
    if scanned.section.closing > 0 {
        let len = scan.at + scanned.section.lines + scanned.section.closing;
        return take_head(alloc, bytes, len);
    }
    if bytes.len() >= MOST_HEAD_BYTES {
        return Ok(Advance::Rejects(MessageFault::HeadTooLarge));
    }
    Ok(Advance::Needs(Progress::InHead(Scan {
        at: scan.at + scanned.scan.at,
        place: scanned.scan.place,
    })))
}

/// Reads a whole head of so many bytes, and what comes after it.
fn take_head(alloc: Global, bytes: &[u8], len: usize) -> Result<Advance, NoMemory>
    requires { head_length (take most_head_bytes bytes.now) ≡ Some len }
    ensures { IfOk result (AdvanceSays bytes.now) }
{
    let text = front_bytes(bytes, len);
    if header_lines(text) > MOST_HEADER_LINES {
        return Ok(Advance::Rejects(MessageFault::HeadTooLarge));
    }
    match read_head(alloc, text)? {
        Some(head) => begin_body(alloc, bytes, head),
        None => Ok(Advance::Rejects(MessageFault::BadMessage)),
    }
}

/// Begins the body after a head.
fn begin_body(alloc: Global, bytes: &[u8], head: Head) -> Result<Advance, NoMemory>
    requires { HasHead bytes.now head }
    ensures { IfOk result (AdvanceSays bytes.now) }
{
    match framing(head.fields.get()) {
        Framing::Sized(size) => advance_body(alloc, bytes, head, size),
        Framing::Chunked => advance_chunks(bytes, head, Chunks::new(alloc)),
        Framing::TooLong => Ok(Advance::Rejects(MessageFault::BodyTooLarge)),
        Framing::Unframed => Ok(Advance::Rejects(MessageFault::BadMessage)),
    }
}

/// Takes a body of so many bytes, once they are there.
fn advance_body(alloc: Global, bytes: &[u8], head: Head, size: usize) -> Result<Advance, NoMemory>
    requires { HasFramed bytes.now head (Sized size) }
    ensures { IfOk result (AdvanceSays bytes.now) }
{
    let after = rest_from(bytes, head.len);
    if after.len() < size {
        return Ok(Advance::Needs(Progress::InBody(head, size)));
    }
    let body = Bytes::of(alloc, front_bytes(after, size))?;
    let len = head.len + size;
    Ok(Advance::Done(head, body, len))
}

/// Reads a body by chunks on.
fn advance_chunks(bytes: &[u8], head: Head, chunks: Chunks) -> Result<Advance, NoMemory>
    requires framed { HasFramed bytes.now head Chunked }
    requires reads { ReadsChunks (take most_encoded_bytes (drop head.len bytes.now)) chunks }
    ensures { IfOk result (AdvanceSays bytes.now) }
{
    let mut chunks = chunks;
    let after = rest_from(bytes, head.len);
    match chunks.read(front_bytes(after, MOST_ENCODED_BYTES))? {
        ChunksEnd::Ended(used) => {
            let len = head.len + used;
            Ok(Advance::Done(head, Bytes::from_vec(chunks.body), len))
        }
        ChunksEnd::Fails(why) => Ok(Advance::Rejects(why)),
        ChunksEnd::Waits => {
            if after.len() > MOST_ENCODED_BYTES {
                return Ok(Advance::Rejects(MessageFault::BodyTooLarge));
            }
            Ok(Advance::Needs(Progress::InChunks(head, chunks)))
        }
    }
}
