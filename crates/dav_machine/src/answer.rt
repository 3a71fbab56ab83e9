use crate::outgoing::Outgoing;

/// What a call is answered.
#[derive(Debug, Drop)]
pub struct Answer {
    pub bytes: Outgoing,
    /// How many events the history had at the call's point, its own among them.
    pub front: u64,
    /// Whether the last of these events is the call's own.
    pub own: bool,
}
