use dsv_base::{Bytes, Moment, Path};
use path_locks::{Lock, Locks};
use row_files::{Answer, Given};
use std::alloc::Global;

/// Answers a row whose columns are the paths of locks, each with a comment, that are put in this order, and a
/// path: the lock on it, and the locks at or below it.
pub fn answer_locks(given: &Given<'_>, out: &mut Answer) {
    match (locks_of(given), given.path(1)) {
        (Some(locks), Some(path)) => put_locks(&locks, &path, out),
        _ => out.give_up(),
    }
}

fn locks_of(given: &Given<'_>) -> Option<Locks> {
    let mut locks = Locks::new(given.alloc);
    if given.text(0) == "none" {
        return Some(locks);
    }
    'locks: for words in given.text(0).split(", ") {
        let lock = lock_of(given.alloc, words)?;
        locks.put(lock).ok()?;
    }
    Some(locks)
}

fn lock_of(alloc: Global, words: &str) -> Option<Lock> {
    let (path, comment) = words.split_once(' ').unwrap_or((words, ""));
    Some(Lock {
        path: Path::parse(alloc, path.as_bytes()).ok()?,
        token: Bytes::of(alloc, words.as_bytes()).ok()?,
        owner: 1,
        owner_name: Bytes::of(alloc, b"ann").ok()?,
        comment: Bytes::of(alloc, comment.as_bytes()).ok()?,
        moment: Moment::of(0)?,
    })
}

fn put_locks(locks: &Locks, path: &Path, out: &mut Answer) {
    match locks.at(path) {
        Some(lock) => put_lock(lock, out),
        None => out.put(b"none"),
    }
    out.put(b" | ");
    match locks.under(path) {
        Ok(found) => put_found(found.as_slice(), out),
        Err(_) => out.give_up(),
    }
}

fn put_found(found: &[&Lock], out: &mut Answer) {
    if found.is_empty() {
        out.put(b"none");
    }
    'found: for (place, lock) in found.iter().enumerate() {
        if place > 0 {
            out.put(b", ");
        }
        put_lock(lock, out);
    }
}

fn put_lock(lock: &Lock, out: &mut Answer) {
    out.put(lock.path.text());
    out.put(b" ");
    out.put(lock.comment.get());
}
