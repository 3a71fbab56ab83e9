use crate::bytes::Bytes;
use crate::path::Path;

/// A lock's token that a commit gives: the locked path and the token.
#[derive(Debug, Drop)]
pub struct Given {
    pub path: Path,
    pub token: Bytes,
}
