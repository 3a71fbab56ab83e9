use dsv_base::{Bytes, List};

/// An attribute by its name as it is written, and its value as it is read.
#[derive(Debug, Drop)]
pub struct Raw {
    pub key: Bytes,
    pub value: Bytes,
}

/// A start tag by its name as it is written, and its attributes, bindings of prefixes among them.
#[derive(Debug, Drop)]
pub struct Tag {
    pub name: Bytes,
    pub attrs: List<Raw>,
}
