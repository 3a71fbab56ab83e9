use crate::rev::Rev;

/// The name of a transaction, which is written `BASE-NUMBER`.
#[derive(Clone, Copy, Debug, PartialEq, Eq)]
pub struct TxnName {
    /// The revision on which it began: the youngest at that time.
    pub base: Rev,
    /// Its number among all transactions of the repository, from 1.
    pub number: u32,
}
