/// What a [`Door`](crate::Door) answered.
#[derive(Debug, Drop)]
pub enum Accepted<S, K> {
    /// A connection: where its bytes come from, and where its replies go to.
    Pair(S, K),
    /// No connection is left, and none will come any more.
    End,
    /// No connection could be given. A later call may give one.
    Failed,
}
