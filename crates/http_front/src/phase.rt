use crate::message_fault::MessageFault;

/// What a connection still gives.
#[derive(Clone, Copy, Debug)]
pub(crate) enum Phase {
    /// Requests may come.
    Open,
    /// The last request was given.
    Finished,
    /// A message was refused.
    Stopped(MessageFault),
}
