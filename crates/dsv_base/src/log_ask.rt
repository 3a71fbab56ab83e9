use crate::bytes::Bytes;
use crate::rev::Rev;

/// What a log-report asks for (Subversion notes, "WebDAV protocol").
#[derive(Debug, Drop)]
pub struct LogAsk {
    /// The path below that of the request's target, without a slash in front; empty means that path.
    pub below: Bytes,
    /// The revision of the first item: the youngest where none is told.
    pub start: Option<Rev>,
    /// The revision of the last item: 0 where none is told.
    pub end: Option<Rev>,
    /// The greatest number of items; 0 sets no limit.
    pub limit: u32,
    /// Whether each item tells its changed paths.
    pub paths: bool,
    /// Whether the history ends where the node was copied.
    pub strict: bool,
}
