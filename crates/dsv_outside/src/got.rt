/// What a read of a [`Source`](crate::Source) answered.
#[derive(Clone, Copy, Debug, PartialEq, Eq)]
pub enum Got {
    /// How many bytes were read: at least 1, and at most as many as there was room for.
    Bytes(usize),
    /// Nothing is left, and nothing more will come.
    End,
    /// The read failed and took nothing. A later one may succeed.
    Failed,
}
