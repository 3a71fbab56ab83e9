use dsv_base::Bytes;

/// A line of the file with those that continue it, by the number of its first line. Skipped lines
/// are none.
#[derive(Debug, Drop)]
pub(crate) enum JoinedLine {
    /// It begins with `[`.
    Head { number: u32, text: Bytes },
    /// Any other, which may be continued.
    Body { number: u32, text: Bytes },
    /// It begins with a blank, and there is nothing that it could continue.
    Stray { number: u32 },
}
