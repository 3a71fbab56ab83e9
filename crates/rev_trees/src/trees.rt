ghost use Rattle.std.specs.Prelude.{◌≡◌, ◌+◌, ◌<◌, ◌≤◌, ℕ, IsTrue, IfOk, [], ◌∷◌, length};
ghost use Rattle.std.specs.Option.{SomeIff};
ghost use Rattle.dsv_base.specs.Paths.{is_path};
ghost use Rattle.node_table.specs.Tables.{cell_at, IsSoundTable};
ghost use Rattle.rev_nodes.specs.Pushes.{first_revision};
ghost use Rattle.rev_nodes.specs.Forests.{id_at, line_at, revision_at, repository_of, IsId, IsNodeOf};
ghost use Rattle.rev_nodes.specs.Entries.{AreEntriesOf, HasNoneInFile, IsSound};
ghost use Rattle.rev_nodes.specs.Formed.{AreFormed};
ghost use Rattle.rev_nodes.specs.Commits.{IsSoundCommit, IsCommitOf, AreCommits};
ghost use Rattle.rev_nodes.specs.SoundNodes.{AreSoundNodes};
ghost use Rattle.rev_nodes.specs.Subtrees.{HaveEqualSubtrees};
ghost use Rattle.rev_trees.specs.Readies.{IsReadyOn, IsUnchanged, Prepares, Pushes};
ghost use Rattle.rev_trees.specs.Drafts.{AreKeptIn};

use crate::next::next_revision;
use crate::push_fault::PushFault;
use crate::ready::Ready;
use crate::revision::{KeptRevision, revision_of};
use dsv_base::{Bytes, List, NoMemory, Path, Rev};
use node_table::Table;
use rev_nodes::{Cell, Changed, Commit, Entry, Line, Node, NodeId};
use std::alloc::Global;
use std::marker::Model;

/// The trees of a repository: its name, its uuid, and one tree a revision.
///
/// Contracts see each revision as its record and its flat tree, a list of paths with nodes in byte
/// order of the path, and beside each node its number. One number may stand at several places; the
/// nodes there are then alike. They see all nodes that were ever made too, by number.
#[derive(Debug, Drop)]
pub struct Trees {
    alloc: Global,
    name: Bytes,
    uuid: Bytes,
    revisions: Vec<KeptRevision>,
    table: Table,
}

impl Model for Trees {
    ghost use Rattle.rev_nodes.specs.Forests.{Forest};
    ghost use Rattle.rev_trees.specs.Kept.{forest_of, AreKept};
    ghost use Rattle.std.specs.Prelude.{◌-◌, vec_len, vec_capacity};

    ghost Value = { Forest };

    ghost view = { λ t. forest_of t.name t.uuid t.table.cells t.revisions.items
        (vec_capacity t.revisions - vec_len t.revisions) t.table.room };

    ghost invariant = { λ t. AreKept t.table.cells t.revisions.items };
}

impl Trees {
    /// Trees with one revision, whose commit has no changes: the root alone.
    pub fn new(alloc: Global, name: &[u8], uuid: &[u8], first: Commit) -> Result<Trees, NoMemory>
        requires first { first.changes ≡ [] }
        requires sound { IsSoundCommit first }
        ensures { IfOk result (λ t. repository_of t
            ≡ record { name = name.now; uuid = uuid.now; revisions = first_revision first ∷ [] }) }
    {
        let name = Bytes::of(alloc, name)?;
        let uuid = Bytes::of(alloc, uuid)?;
        let mut table = Table::new(alloc);
        let root = table.add_root(zeroth())?;
        let revisions = first_revisions(alloc, first, root)?;
        Ok(Trees {
            alloc,
            name,
            uuid,
            revisions,
            table,
        })
    }

    /// The repository's name.
    pub fn name(&self) -> &[u8]
        ensures { result.now ≡ self.now.name }
    {
        self.name.get()
    }

    /// The repository's uuid.
    pub fn uuid(&self) -> &[u8]
        ensures { result.now ≡ self.now.uuid }
    {
        self.uuid.get()
    }

    /// The number of the youngest revision.
    pub fn youngest(&self) -> Rev
        ensures { result + 1 ≡ length self.now.revisions }
    {
        let count = self.revisions.len();
        match Rev::of((count - 1) as u32) {
            Some(rev) => rev,
            None => unreachable!(),
        }
    }

    /// How many nodes were ever made. The number of each is below that.
    pub fn node_count(&self) -> u64
        ensures { result ≡ length self.now.nodes }
    {
        self.table.count()
    }

    /// What holds of all trees. They are formed; their nodes and commits are sound; they stand in
    /// order, and what has one number is alike; so equal numbers have equal subtrees; and each number
    /// is one of the nodes.
    pub fn learn(&self)
        ensures formed { AreFormed self.now }
        ensures nodes { AreSoundNodes self.now }
        ensures commits { AreCommits self.now }
        ensures sound { IsSound self.now }
        ensures subtrees { HaveEqualSubtrees self.now }
        ensures numbers { (id : ℕ) → IsId self.now id → id < length self.now.nodes }
    {
        let _alloc = self.alloc;
    }

    /// The commit of a revision.
    pub fn commit_of(&self, rev: Rev) -> &Commit
        requires { rev < length self.now.revisions }
        ensures is { result.now ≡ (revision_at self.now rev).commit }
        ensures sound { IsCommitOf rev result.now }
    {
        &revision_of(self.revisions.as_slice(), rev.get() as usize).commit
    }

    /// The paths that a revision's commit changed, in byte order.
    pub fn changed(&self, rev: Rev) -> &[Changed]
        requires { rev < length self.now.revisions }
        ensures { result.now ≡ (revision_at self.now rev).changed }
    {
        revision_of(self.revisions.as_slice(), rev.get() as usize)
            .changed
            .get()
    }

    /// Where the line of the node at a path of a revision begins.
    pub fn line(&self, rev: Rev, path: &Path) -> Result<Option<Line>, NoMemory>
        requires { rev < length self.now.revisions }
        ensures { IfOk result (λ line. line ≡ line_at self.now rev path.now) }
    {
        let root = revision_of(self.revisions.as_slice(), rev.get() as usize).root;
        self.table.line(root, known(path))
    }

    /// The node at a path of a revision, by its number.
    pub fn look(&self, rev: Rev, path: &Path) -> Option<NodeId>
        requires { rev < length self.now.revisions }
        ensures { result ≡ id_at self.now rev path.now }
    {
        let root = revision_of(self.revisions.as_slice(), rev.get() as usize).root;
        self.table.look(root, known(path))
    }

    /// What stands in the node of this number, in byte order of the paths, and so of the names; nothing
    /// where that is a file.
    pub fn entries(&self, id: NodeId) -> &[Entry]
        requires { IsId self.now id }
        ensures are { AreEntriesOf self.now id result.now }
        ensures none { HasNoneInFile self.now id result.now }
        ensures sound { IsSound self.now }
        ensures stored { result.now ≡ (cell_at self.now.nodes id).entries }
    {
        self.table.entries(id)
    }

    /// The node of this number.
    pub fn node(&self, id: NodeId) -> &Node
        requires { IsId self.now id }
        ensures is { IsNodeOf self.now id result.now }
        ensures stored { result.now ≡ (cell_at self.now.nodes id).node }
    {
        self.table.node(id)
    }

    /// All nodes, by number.
    pub(crate) fn cells(&self) -> &[Cell]
        ensures cells { result.now ≡ self.now.nodes }
        ensures sound { IsSoundTable self.now.nodes }
    {
        self.table.cells()
    }

    /// The revisions as they are kept.
    pub(crate) fn kept(&self) -> &[KeptRevision]
        ensures { AreKeptIn self.now result.now }
    {
        self.revisions.as_slice()
    }

    /// Makes the next revision of a commit, and room for it, so that its push takes no memory. The
    /// trees and their nodes stay as they are.
    ///
    /// [`PushFault::FullRevisions`] comes exactly where the youngest revision is 2,000,000,000, before
    /// the changes are tried; [`PushFault::Unfit`] has the number of the first change that doesn't fit.
    pub fn prepare(&mut self, commit: Commit) -> Result<Ready, PushFault>
        requires few { length commit.changes ≤ 4294967295 }
        requires sound { IsSoundCommit commit }
        ensures kept { IsUnchanged self.old self.new }
        ensures says { Prepares commit self.old self.new result }
    {
        let rev = match next_rev(self.revisions.len()) {
            Some(rev) => rev,
            None => return Err(PushFault::FullRevisions),
        };
        self.revisions.reserve(1)?;
        let cells = self.table.cells();
        let next = next_revision(self.alloc, cells, self.revisions.as_slice(), commit, rev)?;
        self.table.reserve(next.cells.len())?;
        Ok(Ready::of(rev, next, &*self))
    }

    /// Adds the revision that is ready, and answers its number. It takes no memory, and the other
    /// revisions stay as they are.
    pub fn push_ready(&mut self, ready: Ready) -> Rev
        requires { IsReadyOn ready self.old }
        ensures number { result ≡ length self.old.revisions }
        ensures pushes { Pushes ready self.old self.new }
    {
        let (rev, revision, cells) = ready.parts();
        self.table.append(cells);
        match self.revisions.push(revision) {
            Ok(()) => rev,
            Err(_) => unreachable!(),
        }
    }
}

/// The number after these many revisions, or `None` where there is none.
fn next_rev(count: usize) -> Option<Rev>
    ensures { SomeIff result (count ≤ 2000000000) count }
{
    if count > Rev::MOST as usize {
        return None;
    }
    Rev::of(count as u32)
}

/// The revisions that a repository begins with: one, whose tree is that of a root.
fn first_revisions(
    alloc: Global,
    first: Commit,
    root: NodeId,
) -> Result<Vec<KeptRevision>, NoMemory>
    ensures { IfOk result (λ revisions. revisions.items
        ≡ record { commit = first; changed = []; root = root } ∷ []) }
{
    let revision = KeptRevision {
        commit: first,
        changed: List::of(Vec::new(alloc)),
        root,
    };
    let mut revisions = Vec::new(alloc);
    revisions.push(revision)?;
    Ok(revisions)
}

/// The path, of which is known that it is one.
fn known(path: &Path) -> &Path
    ensures same { result.now ≡ path.now }
    ensures path { IsTrue (is_path path.now) }
{
    let _text = path.text();
    path
}

/// The number of the first revision.
fn zeroth() -> Rev
    ensures { result ≡ 0 }
{
    match Rev::of(0) {
        Some(rev) => rev,
        None => unreachable!(),
    }
}
