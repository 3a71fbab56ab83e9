/// What comes after a chunk's data.
#[derive(Clone, Copy, Debug)]
pub(crate) enum DataEnd {
    /// CR and LF.
    Closed,
    /// A part of CR and LF.
    Open,
    /// Something else.
    Wrong,
}
