ghost use Rattle.std.specs.Prelude.{length, ◌<◌};

use crate::drafts::put_draft;
use crate::levels::put_level;
use crate::nodes::{put_changes, put_checksum, put_line, put_node};
use crate::reading::trees_of;
use dsv_base::Rev;
use rev_scripts::{ScriptFault, write_revision};
use rev_trees::Trees;
use row_files::{Answer, Given};
use std::alloc::Global;

/// The tables on scripts and the trees that they make.
#[derive(Clone, Copy)]
pub enum ScriptTable {
    Script,
    Repository,
    Written,
    Node,
    Changed,
    Line,
    Checksum,
    Nodes,
    Draft,
    Level,
}

/// Answers a row of such a table; the line of a script that isn't taken.
pub fn answer_script(table: ScriptTable, given: &Given<'_>, out: &mut Answer) {
    match trees_of(given.alloc, given.bytes(0)) {
        Ok(trees) => answer_of_trees(table, &trees, given, out),
        Err(ScriptFault::BadScript { line }) => {
            out.put(b"line ");
            out.put_number(u64::from(line));
        }
        Err(ScriptFault::NoMemory) => out.give_up(),
    }
}

fn answer_of_trees(table: ScriptTable, trees: &Trees, given: &Given<'_>, out: &mut Answer) {
    match table {
        ScriptTable::Script => out.put(b"whole"),
        ScriptTable::Repository => put_repository(trees, out),
        ScriptTable::Written => put_revisions(trees, given.alloc, out),
        ScriptTable::Nodes => out.put_number(trees.node_count()),
        _ => match given.revision(1) {
            Some(rev) => answer_of_revision(table, trees, rev, given, out),
            None => out.give_up(),
        },
    }
}

/// The name, the uuid and the youngest revision.
fn put_repository(trees: &Trees, out: &mut Answer) {
    out.put(trees.name());
    out.put(b" | ");
    out.put(trees.uuid());
    out.put(b" | ");
    out.put_number(u64::from(trees.youngest().get()));
}

/// The revisions, written again.
fn put_revisions(trees: &Trees, alloc: Global, out: &mut Answer) {
    'revisions: for number in 0..=trees.youngest().get() {
        match Rev::of(number) {
            Some(rev) => put_revision(trees, rev, alloc, out),
            None => out.give_up(),
        }
    }
}

fn put_revision(trees: &Trees, rev: Rev, alloc: Global, out: &mut Answer) {
    if rev > trees.youngest() {
        return out.give_up();
    }
    out.put_made(write_revision(alloc, rev, trees.commit_of(rev)));
}

/// Answers a row on a revision, and mostly on a path in it.
fn answer_of_revision(
    table: ScriptTable,
    trees: &Trees,
    rev: Rev,
    given: &Given<'_>,
    out: &mut Answer,
) {
    if rev > trees.youngest() {
        return out.put(b"no such revision");
    }
    match table {
        ScriptTable::Node => put_node(trees, rev, given.path(2), out),
        ScriptTable::Changed => put_changes(trees.changed(rev), out),
        ScriptTable::Checksum => put_checksum(given.alloc, trees, rev, given.path(2), out),
        ScriptTable::Draft => put_draft(trees, rev, given, out),
        ScriptTable::Level => put_level(trees.name(), trees.changed(rev), given, out),
        _ => put_line(trees, rev, given.path(2), out),
    }
}
