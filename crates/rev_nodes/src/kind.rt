/// What a node is.
#[derive(Clone, Copy, Debug, PartialEq, Eq)]
pub enum Kind {
    /// A file: it has a text.
    File,
    /// A directory: other nodes stand in it.
    Dir,
}
