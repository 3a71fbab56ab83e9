/// As what a node is asked about.
#[derive(Clone, Copy, Debug, PartialEq, Eq)]
pub(crate) enum AskedAs {
    /// As one of the youngest revision.
    Youngest,
    /// As one of a revision that is named.
    Named,
}
