use dsv_base::Bytes;

/// What a read of a file answered.
#[derive(Debug, Drop)]
pub enum FileGot {
    /// All bytes of the file, at most 268,435,456.
    Bytes(Bytes),
    /// There is no such file, it has more than 268,435,456 bytes, or it can't be read.
    Failed,
    /// There was no memory for the bytes.
    NoMemory,
}
