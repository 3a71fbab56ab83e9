/// The kind of a body, by which its root is known.
#[derive(Clone, Copy, Debug, PartialEq, Eq)]
pub enum BodyKind {
    /// A PROPFIND's (RFC 4918, section 9.1).
    Propfind,
}
