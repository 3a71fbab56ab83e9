/// What the bytes at a chunk's beginning are (RFC 9112, section 7.1).
#[derive(Clone, Copy, Debug)]
pub(crate) enum SizeLine {
    /// A whole size line: its bytes, and the size that it says.
    Line(usize, u64),
    /// A part of a size line.
    Unended,
    /// No size line, whatever follows.
    Unreadable,
}
