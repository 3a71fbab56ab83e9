ghost use Rattle.std.specs.Prelude.{◌≡◌, IfOk};
ghost use Rattle.dav_replies.specs.Replies.{field_of, xml_type};

use dsv_base::{Bytes, Field, NoMemory};
use std::alloc::Global;

pub(crate) fn field_of(alloc: Global, name: &[u8], value: &[u8]) -> Result<Field, NoMemory>
    ensures { IfOk result (λ field. field ≡ field_of name.now value.now) }
{
    Ok(Field {
        name: Bytes::of(alloc, name)?,
        value: Bytes::of(alloc, value)?,
    })
}

/// The field that tells the type of a body in XML.
pub(crate) fn xml_type(alloc: Global) -> Result<Field, NoMemory>
    ensures { IfOk result (λ field. field ≡ xml_type) }
{
    field_of(alloc, b"Content-Type", b"text/xml; charset=\"utf-8\"")
}
