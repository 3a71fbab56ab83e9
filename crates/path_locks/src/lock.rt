use dsv_base::{Bytes, Moment, Path};

/// A write lock on one path, which is exclusive (RFC 4918, section 6 and 7): as long as it stands, only a
/// request that submits its token may change what is there.
#[derive(Debug, Drop)]
pub struct Lock {
    /// The path that is locked.
    pub path: Path,
    /// Its name, which no other lock ever has: the text of a URI.
    pub token: Bytes,
    /// The number of the user who took it.
    pub owner: u32,
    /// The name of that user.
    pub owner_name: Bytes,
    /// What the user said of it.
    pub comment: Bytes,
    /// When it was taken.
    pub moment: Moment,
}
