ghost use Rattle.std.specs.Prelude.{◌≡◌, ◌≤◌, ◌*◌, [], OnOk, length};
ghost use Rattle.rev_nodes.specs.Changes.{apply_from};
ghost use Rattle.tree_edits.specs.Edits.{AreShown};
ghost use Rattle.tree_edits.specs.AreEdits.{AreEdits};
ghost use Rattle.rev_trees.specs.Kept.{trees_in, youngest, AreKept};
ghost use Rattle.rev_trees.specs.Made.{fault_of, AppliesAll, Makes};

use crate::changed_list::changed_paths;
use crate::push_fault::PushFault;
use crate::revision::{KeptRevision, source_root, youngest_root};
use dsv_base::Rev;
use rev_nodes::{Cell, Change, Commit, NodeId, Unfit};
use std::alloc::Global;
use tree_edits::Edits;
use tree_settling::settle;

/// A revision that was made, and its nodes, which stand behind those of the table.
#[derive(Drop)]
pub struct NextRevision {
    pub revision: KeptRevision,
    pub cells: Vec<Cell>,
}

/// The revision of a commit after those so far.
pub fn next_revision(
    alloc: Global,
    cells: &[Cell],
    revisions: &[KeptRevision],
    commit: Commit,
    rev: Rev,
) -> Result<NextRevision, PushFault>
    requires kept { AreKept cells.now revisions.now }
    requires number { rev ≡ length revisions.now }
    requires few { length commit.changes ≤ 4294967295 }
    ensures { Makes cells.now (trees_in revisions.now) commit result }
{
    let before = youngest_root(revisions);
    let mut edits = Edits::on(alloc, before);
    apply_all(
        alloc,
        &mut edits,
        cells,
        revisions,
        commit.changes.get(),
        rev,
    )?;
    let (more, root) = settle(alloc, cells, &edits, rev)?;
    let changed = changed_paths(alloc, commit.changes.get(), cells, before, &edits)?;
    Ok(NextRevision {
        revision: KeptRevision {
            commit,
            changed,
            root,
        },
        cells: more,
    })
}

/// Does the changes in order, up to the first that doesn't fit.
fn apply_all(
    alloc: Global,
    edits: &mut Edits,
    cells: &[Cell],
    revisions: &[KeptRevision],
    changes: &[Change],
    rev: Rev,
) -> Result<(), PushFault>
    requires kept { AreKept cells.now revisions.now }
    requires number { rev ≡ length revisions.now }
    requires are { AreEdits rev cells.now edits.old }
    requires none { edits.old.touched ≡ [] }
    requires shown { AreShown cells.now edits.old (youngest (trees_in revisions.now)) }
    requires few { length changes.now ≤ 4294967295 }
    ensures are { OnOk result (AreEdits rev cells.now edits.new) }
    ensures few { OnOk result (length edits.new.touched ≤ 65 * length changes.now) }
    ensures says { AppliesAll
        (apply_from 0 changes.now (trees_in revisions.now) (youngest (trees_in revisions.now)) rev)
        cells.now edits.new result }
{
    let mut index: u32 = 0;
    'changes: for change in changes {
        let from = source_root(revisions, change);
        match edits.apply(alloc, cells, from, change, rev) {
            Ok(()) => index += 1,
            Err(why) => return Err(fault_of(why, index)),
        }
    }
    Ok(())
}

/// The fault of the change of this number.
fn fault_of(why: Unfit, index: u32) -> PushFault
    ensures { result ≡ fault_of index why }
{
    match why {
        Unfit::NoMemory => PushFault::NoMemory,
        _ => PushFault::Unfit { index },
    }
}
