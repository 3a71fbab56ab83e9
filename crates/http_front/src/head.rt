use dsv_base::{Bytes, Field, List};

/// The head of a request, taken apart (RFC 9112, sections 3 and 5).
#[derive(Debug, Drop)]
pub(crate) struct Head {
    /// How many bytes it has, with the line ends in front of it.
    pub(crate) len: usize,
    pub(crate) method: Bytes,
    pub(crate) target: Bytes,
    pub(crate) fields: List<Field>,
    /// It is of HTTP/1.`minor`.
    pub(crate) minor: u8,
}
