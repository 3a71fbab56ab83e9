use dsv_base::{Moment, Path, PathFault, Rev, parent_text, url_text};
use row_files::{Answer, Given};

/// The tables on paths, revisions and moments.
#[derive(Clone, Copy)]
pub enum PathTable {
    Path,
    InUrl,
    Under,
    Parent,
    Joined,
    Revision,
    Moment,
}

/// Answers a row of such a table.
pub fn answer_path(table: PathTable, given: &Given<'_>, out: &mut Answer) {
    match table {
        PathTable::Path => put_is_path(given, out),
        PathTable::Revision => put_is_revision(given.number(0), out),
        PathTable::Moment => put_is_moment(given.number(0), out),
        _ => match given.path(0) {
            Some(path) => answer_of_path(table, &path, given, out),
            None => out.give_up(),
        },
    }
}

/// Answers a row whose first column is a path.
fn answer_of_path(table: PathTable, path: &Path, given: &Given<'_>, out: &mut Answer) {
    match table {
        PathTable::InUrl => out.put_made(url_text(given.alloc, path)),
        PathTable::Under => put_under(path, given.path(1), out),
        PathTable::Parent => put_parent_and_name(path, out),
        _ => put_joined(path, given.bytes(1), out),
    }
}

fn put_is_path(given: &Given<'_>, out: &mut Answer) {
    match Path::parse(given.alloc, given.bytes(0)) {
        Ok(_) => out.put_word(true),
        Err(PathFault::BadPath) => out.put_word(false),
        Err(PathFault::NoMemory) => out.give_up(),
    }
}

fn put_is_revision(number: Option<u64>, out: &mut Answer) {
    match number {
        Some(number) => out.put_word(u32::try_from(number).is_ok_and(|n| Rev::of(n).is_some())),
        None => out.give_up(),
    }
}

fn put_is_moment(number: Option<u64>, out: &mut Answer) {
    match number {
        Some(number) => out.put_word(Moment::of(number).is_some()),
        None => out.give_up(),
    }
}

fn put_under(path: &Path, top: Option<Path>, out: &mut Answer) {
    match top {
        Some(top) => out.put_word(path.is_under(&top)),
        None => out.give_up(),
    }
}

/// The parent and the last component, which give the path together.
fn put_parent_and_name(path: &Path, out: &mut Answer) {
    match path.parent() {
        Ok(Some(parent)) => put_parent(path, &parent, out),
        Ok(None) => put_top(path, out),
        Err(_) => out.give_up(),
    }
}

fn put_top(path: &Path, out: &mut Answer) {
    out.put(parent_text(path.text()).unwrap_or(b"none"));
    out.put(b" | ");
    out.put(path.name());
}

/// The parent, which is also told of the path's text.
fn put_parent(path: &Path, parent: &Path, out: &mut Answer) {
    out.put(parent.text());
    if parent_text(path.text()) != Some(parent.text()) {
        out.put(b" and another one");
    }
    out.put(b" | ");
    out.put(path.name());
    if !gives(parent, path) {
        out.put(b", which give another path");
    }
}

/// Whether a directory and a path's last component give the path.
fn gives(parent: &Path, path: &Path) -> bool {
    match parent.join(path.name()) {
        Ok(joined) => joined.text() == path.text(),
        Err(_) => false,
    }
}

fn put_joined(path: &Path, name: &[u8], out: &mut Answer) {
    match path.join(name) {
        Ok(joined) => out.put(joined.text()),
        Err(PathFault::BadPath) => out.put(b"none"),
        Err(PathFault::NoMemory) => out.give_up(),
    }
}
