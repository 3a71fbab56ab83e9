/// Why what a file says isn't known.
#[derive(Clone, Copy, Debug, PartialEq, Eq)]
pub enum Unread {
    /// It was read, and this line is the first that breaks its grammar.
    BadLine(u32),
    /// It couldn't be read.
    Failed,
    NoMemory,
}
