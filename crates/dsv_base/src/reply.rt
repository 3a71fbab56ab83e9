use crate::bytes::Bytes;
use crate::field::Field;
use crate::list::List;

/// A reply to a request (RFC 9110, section 3.4), before it is written.
#[derive(Debug, Drop)]
pub struct Reply {
    /// The status code.
    pub status: u16,
    /// The fields in their order. Content-Length and Connection aren't among them: they follow from
    /// the content and from whether the connection ends.
    pub fields: List<Field>,
    pub content: Bytes,
    /// Whether the reply has content: the text of an empty file is content too.
    pub has_content: bool,
}
