/// What may be done at a path: nothing, reading, or reading and writing (Subversion Book,
/// "Path-Based Authorization").
#[derive(Clone, Copy, Debug, PartialEq, Eq, PartialOrd, Ord)]
pub enum Right {
    /// Neither reading nor writing: the value is empty.
    No,
    /// Reading: `r`.
    Read,
    /// Reading and writing: `rw`.
    Write,
}
