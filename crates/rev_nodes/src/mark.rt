/// What a commit did to a path that one of its changes names.
#[derive(Clone, Copy, Debug, PartialEq, Eq)]
pub enum Mark {
    /// Nothing was there before.
    Added,
    /// A node is there as before, and nothing at or above it was deleted.
    Modified,
    /// Nothing is there any more.
    Deleted,
    /// A node is there as before, and one at or above it was deleted.
    Replaced,
}
