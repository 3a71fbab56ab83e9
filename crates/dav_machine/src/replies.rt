ghost use Rattle.std.specs.Prelude.{◌≡◌, ◌++◌, ◌∷◌, IfOk, OnOk, []};
ghost use Rattle.dav_replies.specs.Replies.{IsWritable, field_of};
ghost use Rattle.dav_machine.specs.Replies.{content_reply};

use dsv_base::{Bytes, Field, List, NoMemory, Reply};
use std::alloc::Global;

/// A reply with content of a media type. Its one error is want of memory.
#[tactic(auto, unfolding(crate::specs::Replies::content_reply))]
pub fn content_reply(alloc: Global, media: &[u8], content: Bytes) -> Result<Reply, NoMemory>
    ensures value { IfOk result (λ reply. reply ≡ content_reply media.now content) }
    ensures writable { IfOk result IsWritable }
{
    let mut fields = Vec::new(alloc);
    put_field(&mut fields, b"Content-Type", media)?;
    Ok(Reply {
        status: 200,
        fields: List::of(fields),
        content,
        has_content: true,
    })
}

/// Adds a field.
pub(crate) fn put_field(fields: &mut Vec<Field>, name: &[u8], value: &[u8]) -> Result<(), NoMemory>
    ensures { OnOk result (fields.new.items ≡ fields.old.items ++ field_of name.now value.now ∷ []) }
{
    let alloc = *fields.allocator();
    fields.push(Field {
        name: Bytes::of(alloc, name)?,
        value: Bytes::of(alloc, value)?,
    })?;
    Ok(())
}
