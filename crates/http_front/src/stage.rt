use crate::scan::Scan;

/// What was read of the chunk that is being read.
#[derive(Clone, Copy, Debug)]
pub(crate) enum Stage {
    /// Nothing.
    AtLine,
    /// Its size line, of so many bytes, which says this size.
    InData(usize, usize),
    /// The size line of the last chunk, of so many bytes, and a part of the trailer section.
    InTrailers(usize, Scan),
}
