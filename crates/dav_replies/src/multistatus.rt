ghost use Rattle.std.specs.Prelude.{◌≡◌, IfOk};
ghost use Rattle.dav_replies.specs.Replies.{IsWritable, multistatus_reply};

use crate::fields::xml_type;
use dsv_base::{Bytes, List, NoMemory, Reply};
use std::alloc::Global;

/// The reply whose body is this multistatus (RFC 4918, section 13). The one error is want of memory.
#[tactic(auto, unfolding(crate::specs::Replies::multistatus_reply))]
pub fn multistatus_reply(alloc: Global, document: Bytes) -> Result<Reply, NoMemory>
    ensures value { IfOk result (λ reply. reply ≡ multistatus_reply document) }
    ensures writable { IfOk result IsWritable }
{
    let mut fields = Vec::new(alloc);
    fields.push(xml_type(alloc)?)?;
    Ok(Reply {
        status: 207,
        fields: List::of(fields),
        content: document,
        has_content: true,
    })
}
