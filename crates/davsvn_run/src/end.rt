use dsv_base::Bytes;

/// How a run ended.
#[derive(Debug, Drop)]
pub enum End {
    /// What was asked for is done.
    Well,
    /// The words are none of the program's.
    Usage,
    /// The file of this name breaks its grammar, and this line first.
    BadFile(Bytes, u32),
    /// The input ended inside a request.
    BrokeOff,
    /// The source couldn't be read.
    ReadFault,
    /// The sink couldn't be written.
    WriteFault,
    /// The file of this name couldn't be read.
    FileFault(Bytes),
    NoMemory,
    /// The right isn't the one that was expected.
    OtherRight,
}
