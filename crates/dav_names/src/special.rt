ghost use Rattle.std.specs.Prelude.{◌≡◌, IfOk};
ghost use Rattle.std.specs.Option.{option_copied};
ghost use Rattle.dav_names.specs.Targets.{special_at, me_at, rvr_at, rev_at, txr_at, txn_at};
ghost use Rattle.dav_names.specs.Reading.{parts_left};

use crate::parts::{first_part, path_from_parts};
use crate::resource::Resource;
use crate::txn_names::{rev_named, txn_named};
use dsv_base::NoMemory;
use std::alloc::Global;

/// What the components behind `!svn` name, where they name anything. Its one error is want of
/// memory.
pub fn special_at(alloc: Global, rest: Option<&[u8]>) -> Result<Option<Resource>, NoMemory>
    ensures { IfOk result (λ resource. resource ≡ special_at (parts_left (option_copied rest.entry))) }
{
    let Some(text) = rest else {
        return Ok(None);
    };
    let (word, rest) = first_part(text);
    if word == b"me".as_slice() {
        return Ok(me_at(rest));
    }
    if word == b"rvr".as_slice() {
        return rvr_at(alloc, rest);
    }
    if word == b"rev".as_slice() {
        return Ok(rev_at(rest));
    }
    if word == b"txr".as_slice() {
        return txr_at(alloc, rest);
    }
    if word == b"txn".as_slice() {
        return Ok(txn_at(rest));
    }
    Ok(None)
}

fn me_at(rest: Option<&[u8]>) -> Option<Resource>
    ensures { result ≡ me_at (parts_left (option_copied rest.entry)) }
{
    match rest {
        None => Some(Resource::Me),
        Some(_) => None,
    }
}

fn rvr_at(alloc: Global, rest: Option<&[u8]>) -> Result<Option<Resource>, NoMemory>
    ensures { IfOk result (λ resource. resource ≡ rvr_at (parts_left (option_copied rest.entry))) }
{
    let Some(text) = rest else {
        return Ok(None);
    };
    let (rev, rest) = first_part(text);
    let Some(rev) = rev_named(rev) else {
        return Ok(None);
    };
    match path_from_parts(alloc, rest)? {
        None => Ok(None),
        Some(path) => Ok(Some(Resource::Rvr(rev, path))),
    }
}

fn rev_at(rest: Option<&[u8]>) -> Option<Resource>
    ensures { result ≡ rev_at (parts_left (option_copied rest.entry)) }
{
    let Some(text) = rest else {
        return None;
    };
    match first_part(text) {
        (rev, None) => rev_named(rev).map(Resource::RevOnly),
        (_, Some(_)) => None,
    }
}

fn txr_at(alloc: Global, rest: Option<&[u8]>) -> Result<Option<Resource>, NoMemory>
    ensures { IfOk result (λ resource. resource ≡ txr_at (parts_left (option_copied rest.entry))) }
{
    let Some(text) = rest else {
        return Ok(None);
    };
    let (name, rest) = first_part(text);
    let Some(name) = txn_named(name) else {
        return Ok(None);
    };
    match path_from_parts(alloc, rest)? {
        None => Ok(None),
        Some(path) => Ok(Some(Resource::Txr(name, path))),
    }
}

fn txn_at(rest: Option<&[u8]>) -> Option<Resource>
    ensures { result ≡ txn_at (parts_left (option_copied rest.entry)) }
{
    let Some(text) = rest else {
        return None;
    };
    match first_part(text) {
        (name, None) => txn_named(name).map(Resource::Txn),
        (_, Some(_)) => None,
    }
}
