ghost use Rattle.std.specs.Prelude.{◌≡◌, ◌-◌, ◌<◌, ◌≤◌, length};
ghost use Rattle.rev_trees.specs.Kept.{kept_at, kept_root, source_in};

use dsv_base::List;
use rev_nodes::{Change, Changed, Commit, NodeId};

/// A revision: its commit, what this changed, and the root of its tree in the table.
#[derive(Debug, Drop)]
pub struct KeptRevision {
    pub commit: Commit,
    pub changed: List<Changed>,
    pub root: NodeId,
}

/// The revision of a number.
pub fn revision_of(revisions: &[KeptRevision], rev: usize) -> &KeptRevision
    requires { rev < length revisions.now }
    ensures { result.now ≡ kept_at revisions.now rev }
{
    &revisions[rev]
}

/// The root of the youngest revision.
pub fn youngest_root(revisions: &[KeptRevision]) -> NodeId
    requires { 1 ≤ length revisions.now }
    ensures { result ≡ (kept_at revisions.now (length revisions.now - 1)).root }
{
    revision_of(revisions, revisions.len() - 1).root
}

/// The root of the tree that a change copies from, if there is such a revision; none for another
/// change.
pub fn source_root(revisions: &[KeptRevision], change: &Change) -> Option<NodeId>
    ensures { result ≡ source_in revisions.now change.now }
{
    match change {
        Change::Copy { source_rev, .. } => root_of(revisions, source_rev.get() as usize),
        Change::Put { .. }
        | Change::SetProp { .. }
        | Change::DelProp { .. }
        | Change::Mkdir { .. }
        | Change::Delete { .. } => None,
    }
}

/// The root of the revision of a number, if there is one.
fn root_of(revisions: &[KeptRevision], rev: usize) -> Option<NodeId>
    ensures { result ≡ kept_root revisions.now rev }
{
    if rev < revisions.len() {
        return Some(revision_of(revisions, rev).root);
    }
    None
}
