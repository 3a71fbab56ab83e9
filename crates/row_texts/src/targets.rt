use dav_names::{Resource, TargetFault, TxnName, read_target, root_of, write_target};
use dsv_base::{Path, cut_at};
use row_files::{Answer, Given, revision_in};
use std::alloc::Global;

/// The tables on targets of requests, under the root `/svn/demo`.
#[derive(Clone, Copy)]
pub enum TargetTable {
    Target,
    Written,
    Root,
}

/// Answers a row of such a table.
pub fn answer_target(table: TargetTable, given: &Given<'_>, out: &mut Answer) {
    match table {
        TargetTable::Target => put_target(given.alloc, given.bytes(0), out),
        TargetTable::Written => match resource_of(given.alloc, given.text(0), given.bytes(0)) {
            Some(resource) => put_written(&resource, given, out),
            None => out.give_up(),
        },
        TargetTable::Root => out.put_made(root_of(given.alloc, given.bytes(0))),
    }
}

const ROOT: &[u8] = b"/svn/demo";

/// What a target names, in words.
fn put_target(alloc: Global, target: &[u8], out: &mut Answer) {
    match read_target(alloc, ROOT, target) {
        Ok(resource) => put_words(&resource, out),
        Err(TargetFault::BadTarget) => out.put(b"none"),
        Err(TargetFault::NoMemory) => out.give_up(),
    }
}

fn put_words(resource: &Resource, out: &mut Answer) {
    match resource {
        Resource::Public(path) => put_path(b"path", path, out),
        Resource::Me => out.put(b"me"),
        Resource::Rvr(rev, path) => {
            out.put(b"rvr ");
            out.put_number(u64::from(rev.get()));
            put_path(b"", path, out);
        }
        Resource::RevOnly(rev) => {
            out.put(b"rev ");
            out.put_number(u64::from(rev.get()));
        }
        Resource::Txr(name, path) => {
            put_transaction(b"txr ", name, out);
            put_path(b"", path, out);
        }
        Resource::Txn(name) => put_transaction(b"txn ", name, out),
    }
}

fn put_path(word: &[u8], path: &Path, out: &mut Answer) {
    out.put(word);
    out.put(b" ");
    out.put(path.text());
}

fn put_transaction(word: &[u8], name: &TxnName, out: &mut Answer) {
    out.put(word);
    out.put_number(u64::from(name.base.get()));
    out.put(b"-");
    out.put_number(u64::from(name.number));
}

/// The target that is written for a resource, which is read back as the words that tell it.
fn put_written(resource: &Resource, given: &Given<'_>, out: &mut Answer) {
    match write_target(given.alloc, ROOT, resource) {
        Ok(target) => {
            out.put(target.get());
            put_other(given, target.get(), out);
        }
        Err(_) => out.give_up(),
    }
}

/// What a target is read back as, where that isn't what was given.
fn put_other(given: &Given<'_>, target: &[u8], out: &mut Answer) {
    let mut back = Answer::new(given.alloc);
    put_target(given.alloc, target, &mut back);
    match back.end() {
        Some(words) => {
            if words.as_slice() != given.bytes(0) {
                out.put(b", read back as ");
                out.put(words.as_slice());
            }
        }
        None => out.give_up(),
    }
}

/// The resource that words tell, as they are written and as bytes.
fn resource_of(alloc: Global, text: &str, bytes: &[u8]) -> Option<Resource> {
    if text == "me" {
        return Some(Resource::Me);
    }
    let (kind, words) = text.split_once(' ')?;
    let (_, rest) = cut_at(bytes, b' ')?;
    told_resource_of(alloc, kind, words, rest)
}

fn told_resource_of(alloc: Global, kind: &str, words: &str, rest: &[u8]) -> Option<Resource> {
    match kind {
        "path" => public_of(alloc, rest),
        "rvr" => rvr_of(alloc, words, rest),
        "rev" => rev_of(words),
        "txr" => txr_of(alloc, words, rest),
        "txn" => txn_of(words),
        _ => None,
    }
}

fn public_of(alloc: Global, path: &[u8]) -> Option<Resource> {
    Some(Resource::Public(Path::parse(alloc, path).ok()?))
}

fn rev_of(words: &str) -> Option<Resource> {
    Some(Resource::RevOnly(revision_in(words)?))
}

fn txn_of(words: &str) -> Option<Resource> {
    Some(Resource::Txn(transaction_in(words)?))
}

fn rvr_of(alloc: Global, words: &str, rest: &[u8]) -> Option<Resource> {
    let (rev, _) = words.split_once(' ')?;
    let (_, path) = cut_at(rest, b' ')?;
    let rev = revision_in(rev)?;
    Some(Resource::Rvr(rev, Path::parse(alloc, path).ok()?))
}

fn txr_of(alloc: Global, words: &str, rest: &[u8]) -> Option<Resource> {
    let (name, _) = words.split_once(' ')?;
    let (_, path) = cut_at(rest, b' ')?;
    let name = transaction_in(name)?;
    Some(Resource::Txr(name, Path::parse(alloc, path).ok()?))
}

fn transaction_in(text: &str) -> Option<TxnName> {
    let (base, number) = text.split_once('-')?;
    let base = revision_in(base)?;
    let number = number.parse::<u32>().ok()?;
    Some(TxnName { base, number })
}
