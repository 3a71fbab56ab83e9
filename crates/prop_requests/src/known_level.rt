use dsv_base::Rev;
use log_access::Level;

/// The level at which the user is shown the record of a revision.
#[derive(Clone, Copy, Debug, PartialEq, Eq)]
pub(crate) struct KnownLevel {
    pub rev: Rev,
    pub level: Level,
}
