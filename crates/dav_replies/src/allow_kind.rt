/// The kinds of resources, as far as they differ in the methods that they take.
#[derive(Clone, Copy, Debug, PartialEq, Eq)]
pub enum AllowKind {
    /// A path of the youngest revision.
    Public,
    /// A path of a named revision.
    Rvr,
    /// A revision without a path.
    RevOnly,
    /// The resource that makes transactions and gives reports.
    Me,
    /// A path other than `/` of a transaction.
    Txr,
    /// The path `/` of a transaction.
    TxrRoot,
    /// A transaction without a path.
    Txn,
}
