use crate::bytes::Bytes;

/// A user: the place in the users file, counted from 1, and the name.
#[derive(Debug, Drop)]
pub struct Person {
    pub number: u32,
    pub name: Bytes,
}
