/// What a put into a [`Sink`](crate::Sink) answered.
#[derive(Clone, Copy, Debug, PartialEq, Eq)]
pub enum Put {
    /// All the bytes were taken.
    Done,
    /// Some first bytes were taken, or none.
    Failed,
    /// For want of memory nothing was taken.
    NoMemory,
}
