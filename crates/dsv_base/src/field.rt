use crate::bytes::Bytes;

/// One field of a message's head: its name as it was written, and its value without the blanks
/// around it (RFC 9112, section 5).
#[derive(Debug, Drop)]
pub struct Field {
    pub name: Bytes,
    pub value: Bytes,
}
