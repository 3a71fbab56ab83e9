use dsv_base::Rev;
use rev_nodes::Kind;

/// What stands at a path of a draft.
#[derive(Clone, Copy, Debug, PartialEq, Eq)]
pub struct Seen {
    pub kind: Kind,
    /// The revision of its last change, or `None` where the draft's changes touch the path.
    pub created: Option<Rev>,
}
