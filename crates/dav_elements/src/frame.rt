use crate::bounds::Bounds;
use crate::elem::{Attr, Part};
use dsv_base::{Bytes, List, PropName};
use sqlite_items::Items;

/// What holds for the elements inside: how many may still stand in each other, and the bindings.
#[derive(Debug, Drop)]
pub struct Scope {
    pub left: u32,
    pub spaces: Bounds,
}

/// What a start tag says.
#[derive(Debug, Drop)]
pub struct Opened {
    pub scope: Scope,
    pub name: PropName,
    pub attrs: List<Attr>,
}

/// An element whose end tag hasn't come: its name as it is written, what its start tag says, its parts,
/// and the text behind the last of them.
#[derive(Debug, Drop)]
pub struct Frame {
    pub raw: Bytes,
    pub head: Opened,
    pub parts: Items<Part>,
    pub text: List<u8>,
}
