use crate::request::Request;

/// What a [`Front`](crate::Front) has at its beginning.
#[derive(Debug, Drop)]
pub enum Next {
    /// A whole request, which is taken out.
    Request(Request),
    /// A part of a message, which needs more bytes; or the last request was given.
    More,
    /// A message that isn't of HTTP/1.0 or HTTP/1.1, or whose body has no clear length.
    BadMessage {
        /// The offset, among all bytes of the connection, at which the message begins.
        at: u64,
    },
    /// A head that is longer than it may be, or has more than 100 lines; or trailers that are too long.
    HeadTooLarge,
    /// A body that is longer than it may be.
    BodyTooLarge,
    /// Want of memory.
    NoMemory,
}
