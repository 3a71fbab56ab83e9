ghost use Rattle.std.specs.Prelude.{◌≡◌, ◌<◌, ◌≤◌, [], Ok, IfOk, OnErr, nat_lt, length};
ghost use Rattle.std.specs.Option.{option_map};
ghost use Rattle.rev_nodes.specs.Trees.{Tree};
ghost use Rattle.rev_nodes.specs.Changes.{unfit, apply};
ghost use Rattle.rev_nodes.specs.Fitting.{Fits};
ghost use Rattle.rev_nodes.specs.Formed.{IsFormed};
ghost use Rattle.rev_nodes.specs.Drafts.{coming, draft_tree};
ghost use Rattle.tree_edits.specs.Edits.{AreShown};
ghost use Rattle.tree_edits.specs.AreEdits.{AreEdits};
ghost use Rattle.rev_trees.specs.Kept.{trees_in, AreKept};
ghost use Rattle.rev_trees.specs.Drafts.{IsGrown, Tries, flat_trees, drafted, draft_shows, seen_glance};

use crate::revision::{KeptRevision, revision_of, source_root};
use crate::seen::Seen;
use crate::trees::Trees;
use dsv_base::{NoMemory, Path, Rev};
use rev_nodes::{Cell, Change, Unfit};
use std::alloc::Global;
use std::marker::Model;
use std::snapshot::Snapshot;
use tree_edits::{Edits, Glance};

/// Changes that are to be committed, over the tree of a revision. Each change is tried when it comes.
///
/// It keeps its changes and what they changed, and nothing of the trees it is over: each call takes
/// these, as they were when it began or with later revisions pushed. Contracts see the trees with
/// which it was made or changed last, its base and its changes.
#[derive(Drop)]
pub struct Draft {
    alloc: Global,
    base: Rev,
    changes: Vec<Change>,
    edits: Edits,
    trees: Snapshot<Trees>,
}

impl Model for Draft {
    ghost use Rattle.rev_trees.specs.Drafts.{DraftOn, IsDraft};

    ghost Value = { DraftOn };

    ghost view = { λ d. record { trees = d.trees.value; base = d.base; changes = d.changes.items } };

    ghost invariant = { λ d. IsDraft d.trees.value d.base d.changes.items d.edits };
}

impl Draft {
    /// A draft without changes over the tree of a revision. Its one error is want of memory, which
    /// it answers too where the youngest revision is 2,000,000,000: nothing can be committed any
    /// more.
    pub fn on(alloc: Global, trees: &Trees, base: Rev) -> Result<Draft, NoMemory>
        requires { base < length trees.now.revisions }
        ensures is { IfOk result (λ draft. draft ≡ record { trees = trees.now; base = base; changes = [] }) }
        ensures grown { IfOk result (λ draft. IsGrown draft.trees trees.now) }
    {
        if is_full(trees) {
            return Err(NoMemory);
        }
        let root = revision_of(trees.kept(), base.get() as usize).root;
        Ok(Draft {
            alloc,
            base,
            changes: Vec::new(alloc),
            edits: Edits::on(alloc, root),
            trees: Snapshot::of(trees),
        })
    }

    /// The revision over whose tree it is.
    pub fn base(&self) -> Rev
        ensures { result ≡ self.now.base }
    {
        self.base
    }

    /// Its changes in order.
    pub fn changes(&self) -> &[Change]
        ensures { result.now ≡ self.now.changes }
    {
        self.changes.as_slice()
    }

    /// What holds of all drafts: the changes fit, one after another, and the tree that they make is
    /// formed.
    pub fn learn(&self, trees: &Trees)
        requires { IsGrown self.now.trees trees.now }
        ensures fit { draft_tree (flat_trees trees.now) self.now.base self.now.changes
            ≡ Ok (drafted trees.now self.now) }
        ensures formed { IsFormed (drafted trees.now self.now) }
    {
        let _base = self.base;
        let _cells = trees.cells();
    }

    /// Makes one more change, or says why it doesn't fit; then the draft is as it was. A copy is
    /// taken from these trees. [`Unfit::NoMemory`] comes too where the youngest revision is
    /// 2,000,000,000: nothing can be committed any more.
    pub fn apply(&mut self, trees: &Trees, change: &Change) -> Result<(), Unfit>
        requires { IsGrown self.old.trees trees.now }
        ensures says { Tries trees.now change.now self.old self.new result }
        ensures kept { OnErr result (self.new ≡ self.old) }
        ensures grown { IsGrown self.new.trees trees.now }
    {
        if is_full(trees) {
            return Err(Unfit::NoMemory);
        }
        self.changes.reserve(1)?;
        let copy = change.copy()?;
        match change_edits(
            self.alloc,
            &mut self.edits,
            trees.cells(),
            trees.kept(),
            change,
        ) {
            Ok(()) => (),
            Err(why) => return Err(why),
        }
        self.trees = Snapshot::of(trees);
        match self.changes.push(copy) {
            Ok(()) => Ok(()),
            Err(_) => unreachable!(),
        }
    }

    /// What stands at a path, if anything does.
    pub fn look(&self, trees: &Trees, path: &Path) -> Option<Seen>
        requires { IsGrown self.now.trees trees.now }
        ensures { result ≡ draft_shows trees.now self.now path.now }
    {
        seen_of(self.edits.glance(trees.cells(), path))
    }
}

/// Whether the youngest revision has the last number.
fn is_full(trees: &Trees) -> bool
    ensures { result ≡ nat_lt coming (length trees.now.revisions) }
{
    trees.youngest().get() >= Rev::MOST
}

/// The number that stands for that of the revision that is to come.
fn coming() -> Rev
    ensures { result ≡ coming }
{
    match Rev::of(Rev::MOST) {
        Some(rev) => rev,
        None => unreachable!(),
    }
}

/// Makes one change on edits, or says why it doesn't fit; then they are as they were.
fn change_edits(
    alloc: Global,
    edits: &mut Edits,
    cells: &[Cell],
    revisions: &[KeptRevision],
    change: &Change,
) -> Result<(), Unfit>
    requires kept { AreKept cells.now revisions.now }
    requires few { length revisions.now ≤ coming }
    requires are { AreEdits coming cells.now edits.old }
    ensures are { AreEdits coming cells.now edits.new }
    ensures says { (tree : Tree) → AreShown cells.now edits.old tree
        → Fits (λ done. AreShown cells.now edits.new (apply change.now (trees_in revisions.now) tree coming))
        (unfit change.now (trees_in revisions.now) tree) result }
    ensures kept { OnErr result (edits.new ≡ edits.old) }
{
    let from = source_root(revisions, change);
    edits.apply(alloc, cells, from, change, coming())
}

/// What a draft shows where this stands, or nothing does.
fn seen_of(glance: Option<Glance>) -> Option<Seen>
    ensures { result ≡ option_map seen_glance glance }
{
    match glance {
        None => None,
        Some(glance) => Some(seen_glance(&glance)),
    }
}

/// What a draft shows where this stands.
fn seen_glance(glance: &Glance) -> Seen
    ensures { result ≡ seen_glance glance.now }
{
    let kind = glance.kind;
    if glance.created.get() == Rev::MOST || glance.since.get() == Rev::MOST {
        return Seen {
            kind,
            created: None,
        };
    }
    Seen {
        kind,
        created: Some(glance.created),
    }
}
