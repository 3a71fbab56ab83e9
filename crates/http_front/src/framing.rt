/// The length of a body as the fields of a head say it (RFC 9112, section 6.3).
#[derive(Clone, Copy, Debug)]
pub(crate) enum Framing {
    /// So many bytes.
    Sized(usize),
    /// Chunks.
    Chunked,
    /// More bytes than a body may have.
    TooLong,
    /// The fields don't say it in a form that is taken.
    Unframed,
}
