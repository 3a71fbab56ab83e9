use dsv_base::Bytes;

/// The bytes that a call is answered.
#[derive(Debug, Drop)]
pub enum Outgoing {
    /// The bytes of the reply, which is one that the request's form asks for.
    Bytes(Bytes),
    /// There was no memory for them, and nothing was changed: what is sent are the bytes of
    /// [`dav_replies::no_memory_bytes`].
    NoMemory,
}
