use crate::chunks::Chunks;
use crate::head::Head;
use crate::message_fault::MessageFault;
use crate::scan::Scan;
use dsv_base::Bytes;

/// How far the message at the front was read.
#[derive(Debug, Drop)]
pub(crate) enum Progress {
    /// A part of its head.
    InHead(Scan),
    /// Its head; its body has so many bytes.
    InBody(Head, usize),
    /// Its head, and a part of its body, which comes by chunks.
    InChunks(Head, Chunks),
}

/// What reading on came to.
#[derive(Debug, Drop)]
pub(crate) enum Advance {
    /// The message is whole, and has this body and so many bytes.
    Done(Head, Bytes, usize),
    /// More bytes are needed.
    Needs(Progress),
    /// The message is refused.
    Rejects(MessageFault),
}
