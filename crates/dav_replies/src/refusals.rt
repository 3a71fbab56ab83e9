ghost use Rattle.std.specs.Prelude.{◌≡◌, IfOk};
ghost use Rattle.dav_replies.specs.Replies.{IsWritable};
ghost use Rattle.dav_replies.specs.Refusals.{refusal_reply, refusal_bytes, own_fields};

use crate::client::Client;
use crate::error_body::error_body;
use crate::fields::{field_of, xml_type};
use crate::method::allow_list;
use crate::refusal::Refusal;
use crate::tables::row_of;
use crate::writing::reply_bytes;
use dsv_base::{Bytes, Field, List, NoMemory, Reply};
use std::alloc::Global;

/// The reply that tells a client a refusal: its body is an error document with the code, the name and
/// what the refusal names (RFC 4918, section 16). A client of Subversion is told Subversion's own code.
/// The one error is want of memory.
#[tactic(auto, unfolding(crate::specs::Refusals::refusal_reply))]
pub fn refusal_reply(alloc: Global, client: Client, refusal: &Refusal) -> Result<Reply, NoMemory>
    ensures value { IfOk result (λ reply. reply ≡ refusal_reply client refusal.now) }
    ensures writable { IfOk result IsWritable }
{
    let mut fields = own_fields(alloc, refusal)?;
    fields.push(xml_type(alloc)?)?;
    let content = error_body(alloc, client, refusal)?;
    Ok(Reply {
        status: row_of(refusal).status,
        fields: List::of(fields),
        content,
        has_content: true,
    })
}

/// The fields that stand before Content-Type.
fn own_fields(alloc: Global, refusal: &Refusal) -> Result<Vec<Field>, NoMemory>
    ensures { IfOk result (λ fields. fields.items ≡ own_fields refusal.now) }
{
    let mut fields = Vec::new(alloc);
    match refusal {
        Refusal::NeedsLogin => fields.push(field_of(
            alloc,
            b"WWW-Authenticate",
            b"Basic realm=\"davsvn\"",
        )?)?,
        Refusal::WrongMethod { allow } | Refusal::Exists { allow } => {
            fields.push(field_of(alloc, b"Allow", allow_list(*allow))?)?
        }
        _ => {}
    }
    Ok(fields)
}

/// The bytes of the reply that tells a client a refusal, to HEAD and on the connection's end as
/// [`reply_bytes`] has them. A refusal that ends the connection always says so, and is always written
/// with its content. The one error is want of memory.
#[tactic(auto, unfolding(crate::specs::Refusals::refusal_bytes))]
pub fn refusal_bytes(
    alloc: Global,
    client: Client,
    refusal: &Refusal,
    head_only: bool,
    last: bool,
) -> Result<Bytes, NoMemory>
    ensures { IfOk result (λ bytes. bytes ≡ refusal_bytes client refusal.now head_only last) }
{
    let closing = row_of(refusal).closing;
    let reply = refusal_reply(alloc, client, refusal)?;
    reply_bytes(alloc, &reply, head_only && !closing, last || closing)
}
