use dav_replies::{AllowKind, Form, Refusal};
use dsv_base::{Path, cut_at};
use row_files::{Answer, named, revision_in};
use std::alloc::Global;

/// A refusal by its name, and by what it tells beside that: as it is written, and as bytes.
pub fn refusal_of(alloc: Global, text: &str, bytes: &[u8]) -> Option<Refusal> {
    match text.split_once(' ') {
        Some((name, word)) => told_by_a_word(name, word).or(told_by_bytes(alloc, name, bytes)),
        None => told_by_its_name(text),
    }
}

/// The refusals that tell a number or a kind.
fn told_by_a_word(name: &str, word: &str) -> Option<Refusal> {
    match name {
        "NoRevision" => Some(Refusal::NoRevision {
            rev: revision_in(word)?,
        }),
        "OutOfDate" => Some(Refusal::OutOfDate {
            created: revision_in(word)?,
        }),
        "WrongMethod" => Some(Refusal::WrongMethod {
            allow: named(&ALLOW_KINDS, word)?,
        }),
        "Exists" => Some(Refusal::Exists {
            allow: named(&ALLOW_KINDS, word)?,
        }),
        "NotInProfile" => Some(Refusal::NotInProfile {
            form: named(&FORMS, word)?,
        }),
        _ => None,
    }
}

/// The refusals that tell a path or two sums.
fn told_by_bytes(alloc: Global, name: &str, bytes: &[u8]) -> Option<Refusal> {
    let (_, told) = cut_at(bytes, b' ')?;
    match name {
        "Conflict" => Some(Refusal::Conflict {
            path: Path::parse(alloc, told).ok()?,
        }),
        "Locked" => Some(Refusal::Locked {
            path: Path::parse(alloc, told).ok()?,
        }),
        "WrongText" => wrong_text_of(told),
        _ => None,
    }
}

/// Two MD5 sums in 32 bytes: the one that was told, and that of the text.
fn wrong_text_of(sums: &[u8]) -> Option<Refusal> {
    if sums.len() != 32 {
        return None;
    }
    let mut told = [0u8; 16];
    let mut got = [0u8; 16];
    told.copy_from_slice(&sums[..16]);
    got.copy_from_slice(&sums[16..]);
    Some(Refusal::WrongText { told, got })
}

/// The refusals that tell their name alone.
fn told_by_its_name(name: &str) -> Option<Refusal> {
    refusal_of_a_request(name)
        .or(refusal_of_a_change(name))
        .or(refusal_for_want(name))
}

fn refusal_of_a_request(name: &str) -> Option<Refusal> {
    match name {
        "BadMessage" => Some(Refusal::BadMessage),
        "BadTarget" => Some(Refusal::BadTarget),
        "BadBody" => Some(Refusal::BadBody),
        "BadHeader" => Some(Refusal::BadHeader),
        "NeedsLogin" => Some(Refusal::NeedsLogin),
        "Denied" => Some(Refusal::Denied),
        "InfiniteDepth" => Some(Refusal::InfiniteDepth),
        "NoNode" => Some(Refusal::NoNode),
        _ => None,
    }
}

fn refusal_of_a_change(name: &str) -> Option<Refusal> {
    match name {
        "NoTransaction" => Some(Refusal::NoTransaction),
        "NoParent" => Some(Refusal::NoParent),
        "WrongToken" => Some(Refusal::WrongToken),
        "NotOverwritten" => Some(Refusal::NotOverwritten),
        "KeeperFault" => Some(Refusal::KeeperFault),
        _ => None,
    }
}

fn refusal_for_want(name: &str) -> Option<Refusal> {
    match name {
        "BodyTooLarge" => Some(Refusal::BodyTooLarge),
        "HeadTooLarge" => Some(Refusal::HeadTooLarge),
        "NoMemory" => Some(Refusal::NoMemory),
        "FullRevisions" => Some(Refusal::FullRevisions),
        "TooManyTransactions" => Some(Refusal::TooManyTransactions),
        "TooManyChanges" => Some(Refusal::TooManyChanges),
        "PathTooLong" => Some(Refusal::PathTooLong),
        "TooManyLocks" => Some(Refusal::TooManyLocks),
        _ => None,
    }
}

/// The kinds of resources by name.
const ALLOW_KINDS: [(&str, AllowKind); 7] = [
    ("public", AllowKind::Public),
    ("rvr", AllowKind::Rvr),
    ("rev", AllowKind::RevOnly),
    ("me", AllowKind::Me),
    ("txr", AllowKind::Txr),
    ("txr-root", AllowKind::TxrRoot),
    ("txn", AllowKind::Txn),
];
/// The forms by name.
const FORMS: [(&str, Form); 20] = [
    ("svndiff", Form::Svndiff),
    ("content-encoding", Form::ContentEncoding),
    ("post-type", Form::PostType),
    ("if-condition", Form::IfCondition),
    ("copy-depth", Form::CopyDepth),
    ("doctype", Form::Doctype),
    ("processing", Form::Processing),
    ("propname", Form::Propname),
    ("shared-lock", Form::SharedLock),
    ("lock-refresh", Form::LockRefresh),
    ("report", Form::Report),
    ("report-place", Form::ReportPlace),
    ("switch", Form::Switch),
    ("update-target", Form::UpdateTarget),
    ("link-path", Form::LinkPath),
    ("mixed", Form::Mixed),
    ("depth", Form::Depth),
    ("several-paths", Form::SeveralPaths),
    ("merged-revisions", Form::MergedRevisions),
    ("later", Form::Later),
];

/// Writes `form`, and the form by its name.
pub fn put_form(form: Form, out: &mut Answer) {
    out.put(b"form ");
    out.put(form_word(form).as_bytes());
}

/// The word for a form.
fn form_word(form: Form) -> &'static str {
    'forms: for (word, known) in &FORMS {
        if *known == form {
            return word;
        }
    }
    ""
}
