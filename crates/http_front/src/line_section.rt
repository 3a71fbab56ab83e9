/// Lines up to an empty one (RFC 9112, section 2.1).
#[derive(Clone, Copy, Debug)]
pub(crate) struct LineSection {
    /// The bytes of the lines, with one byte more for a line that isn't ended.
    pub(crate) lines: usize,
    /// The bytes of the empty line: 0 where it hasn't come.
    pub(crate) closing: usize,
}
