use dsv_base::{Path, Rev, TxnName};

/// What a request target names in a repository, whose root is ROOT.
#[derive(Debug, Drop)]
pub enum Resource {
    /// A path of the youngest revision: `ROOT/PATH`.
    Public(Path),
    /// The resource that stands for the repository: `ROOT/!svn/me`.
    Me,
    /// A path of a revision: `ROOT/!svn/rvr/REV/PATH`.
    Rvr(Rev, Path),
    /// A revision: `ROOT/!svn/rev/REV`.
    RevOnly(Rev),
    /// A path of a transaction's tree: `ROOT/!svn/txr/NAME/PATH`.
    Txr(TxnName, Path),
    /// A transaction: `ROOT/!svn/txn/NAME`.
    Txn(TxnName),
}
