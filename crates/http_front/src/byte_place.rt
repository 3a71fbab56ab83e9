/// Where in the lines of a section a byte stands.
#[derive(Clone, Copy, Debug)]
pub(crate) enum BytePlace {
    /// Before a head, where line ends may stand.
    Before,
    /// At a line's beginning.
    Between,
    /// In a line.
    Inside,
}
