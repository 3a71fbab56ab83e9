/// How the serving of a connection ended.
#[derive(Clone, Copy, Debug, PartialEq, Eq)]
pub enum ServeEnd {
    /// The input ended between two requests, or before the first.
    Ended,
    /// The last request of the connection was answered, or one was refused in a way that closes it.
    Closed,
    /// The input ended inside a request.
    BrokeOff,
    /// A read of the input failed.
    ReadFault,
    /// A put of the output failed.
    WriteFault,
    /// Memory was wanting for what the connection itself holds, or for its output.
    NoMemory,
}
