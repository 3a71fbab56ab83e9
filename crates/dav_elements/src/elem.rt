use dsv_base::{Bytes, List, PropName};
use sqlite_items::Items;

/// An attribute: its name with its namespace, and its value as it is read.
#[derive(Debug, Drop)]
pub struct Attr {
    pub name: PropName,
    pub value: Bytes,
}

/// What stands in an element.
#[derive(Debug, Drop)]
#[cycle(elem)]
pub enum Part {
    /// A text, which isn't empty, up to the next tag.
    Text(Bytes),
    /// An element.
    Child(Elem),
}

/// An element: its name with its namespace, its attributes without the bindings of prefixes, and what
/// stands in it, each in order.
#[derive(Debug, Drop)]
#[cycle(elem)]
pub struct Elem {
    pub name: PropName,
    pub attrs: List<Attr>,
    pub parts: Items<Part>,
}
