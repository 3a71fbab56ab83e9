use crate::next::NextRevision;
use crate::revision::KeptRevision;
use crate::trees::Trees;
use dsv_base::Rev;
use rev_nodes::Cell;
use std::marker::Model;
use std::snapshot::Snapshot;

/// A revision that [`crate::Trees::prepare`] made and that can be pushed without taking memory.
///
/// Its nodes are its own until it is pushed: one that is dropped leaves nothing behind. Contracts see
/// the revisions and nodes that it was prepared on, the room that it needs, its commit, what this
/// changed, and its tree.
#[derive(Drop)]
pub struct Ready {
    rev: Rev,
    revision: KeptRevision,
    cells: Vec<Cell>,
    base: Snapshot<Trees>,
}

impl Model for Ready {
    ghost use Rattle.rev_trees.specs.Readies.{ReadyRevision};
    ghost use Rattle.rev_trees.specs.Kept.{ready_of, IsReady};

    ghost Value = { ReadyRevision };

    ghost view = { λ r. ready_of r.base.value r.revision.commit r.revision.changed r.cells.items };

    ghost invariant = { λ r. IsReady r.base.value r.rev r.revision r.cells.items };
}

impl Ready {
    ghost use Rattle.std.specs.Prelude.{◌≡◌, List};
    ghost use Rattle.rev_nodes.specs.Forests.{Forest};
    ghost use Rattle.rev_trees.specs.Kept.{ready_of, IsReady};

    /// What was made on these trees, with the number of its revision.
    pub(crate) fn of(rev: Rev, next: NextRevision, base: &Trees) -> Ready
        requires { IsReady base.now rev next.revision next.cells.items }
        ensures { result ≡ ready_of base.now next.revision.commit next.revision.changed next.cells.items }
    {
        let NextRevision { revision, cells } = next;
        Ready {
            rev,
            revision,
            cells,
            base: Snapshot::of(base),
        }
    }

    /// The revision with its number, and its nodes.
    pub(crate) fn parts(self) -> (Rev, KeptRevision, Vec<Cell>)
        ensures { (base : Forest)
            × (ready_of base result.1.commit result.1.changed result.2.items ≡ self)
            × IsReady base result.0 result.1 result.2.items }
    {
        let Ready {
            rev,
            revision,
            cells,
            ..
        } = self;
        (rev, revision, cells)
    }
}
