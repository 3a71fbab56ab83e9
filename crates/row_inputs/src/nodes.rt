ghost use Rattle.std.specs.Prelude.{length, ◌<◌};

use dsv_base::{Path, Rev};
use rev_nodes::{Changed, Kind, Line, Mark, Node};
use rev_trees::Trees;
use row_files::Answer;
use std::alloc::Global;

/// The kind of the node at a path of a revision, its `created` and its text.
pub fn put_node(trees: &Trees, rev: Rev, path: Option<Path>, out: &mut Answer)
    requires { rev < length trees.now.revisions }
{
    match path {
        Some(path) => match trees.look(rev, &path) {
            Some(id) => put_node_of(trees.node(id), out),
            None => out.put(b"none"),
        },
        None => out.give_up(),
    }
}

/// The MD5 of the text at a path of a revision.
pub fn put_checksum(alloc: Global, trees: &Trees, rev: Rev, path: Option<Path>, out: &mut Answer)
    requires { rev < length trees.now.revisions }
{
    match path {
        Some(path) => match trees.look(rev, &path) {
            Some(id) => out.put_shown(hex::encode(alloc, trees.node(id).text.md5())),
            None => out.put(b"none"),
        },
        None => out.give_up(),
    }
}

fn put_node_of(node: &Node, out: &mut Answer) {
    out.put(kind_word(node.kind));
    out.put(b" | ");
    out.put_number(u64::from(node.created.get()));
    out.put(b" | ");
    out.put(node.text.get());
}

/// Since when the node at a path of a revision is there, and what it was copied from.
pub fn put_line(trees: &Trees, rev: Rev, path: Option<Path>, out: &mut Answer)
    requires { rev < length trees.now.revisions }
{
    match path {
        Some(path) => match trees.line(rev, &path) {
            Ok(Some(line)) => put_line_of(&line, out),
            Ok(None) => out.put(b"none"),
            Err(_) => out.give_up(),
        },
        None => out.give_up(),
    }
}

fn put_line_of(line: &Line, out: &mut Answer) {
    out.put(b"since ");
    out.put_number(u64::from(line.since.get()));
    put_source(&line.source, out);
}

/// What changed, each path ended by `;`.
pub fn put_changes(changes: &[Changed], out: &mut Answer) {
    'changes: for changed in changes {
        put_changed(changed, out);
    }
}

fn put_changed(changed: &Changed, out: &mut Answer) {
    out.put(mark_word(changed.mark));
    out.put(b" ");
    out.put(kind_word(changed.kind));
    out.put(b" ");
    out.put(changed.path.text());
    put_source(&changed.source, out);
    out.put(b";");
}

fn put_source(source: &Option<(Path, Rev)>, out: &mut Answer) {
    if let Some((path, rev)) = source {
        out.put(b" from ");
        out.put(path.text());
        out.put(b" of ");
        out.put_number(u64::from(rev.get()));
    }
}

pub fn kind_word(kind: Kind) -> &'static [u8] {
    match kind {
        Kind::File => b"file",
        Kind::Dir => b"directory",
    }
}

fn mark_word(mark: Mark) -> &'static [u8] {
    match mark {
        Mark::Added => b"added",
        Mark::Modified => b"modified",
        Mark::Deleted => b"deleted",
        Mark::Replaced => b"replaced",
    }
}
