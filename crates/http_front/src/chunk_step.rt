use crate::message_fault::MessageFault;

/// What the bytes of a body by chunks came to.
#[derive(Clone, Copy, Debug)]
pub(crate) enum ChunksEnd {
    /// The body is whole, and has so many bytes in chunks.
    Ended(usize),
    /// More bytes are needed.
    Waits,
    /// The body is refused.
    Fails(MessageFault),
}

/// What came of one step in a body by chunks.
#[derive(Clone, Copy, Debug)]
pub(crate) enum ChunkStep {
    /// It goes on.
    Goes,
    /// It doesn't.
    Ends(ChunksEnd),
}
