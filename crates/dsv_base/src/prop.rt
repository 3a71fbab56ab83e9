use crate::bytes::Bytes;

/// A property of a node or a revision.
#[derive(Debug, Drop)]
pub struct Prop {
    pub name: Bytes,
    pub value: Bytes,
}
