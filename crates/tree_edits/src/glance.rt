use dsv_base::Rev;
use rev_nodes::Kind;

/// What stands at a place, as far as no memory is needed to read it.
#[derive(Clone, Copy, Debug, PartialEq, Eq)]
pub struct Glance {
    pub kind: Kind,
    /// The revision of its last change.
    pub created: Rev,
    /// The revision in which its line began.
    pub since: Rev,
}
