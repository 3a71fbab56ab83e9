ghost use Rattle.std.specs.Prelude.{◌≡◌, length, drop};
ghost use Rattle.std.specs.Fmt.{decimal};
ghost use Rattle.std.specs.Option.{option_map, option_and_then, option_copied};
ghost use Rattle.hex.specs.Hex.{encode_lower};
ghost use Rattle.md5.specs.Md5.{md5};
ghost use Rattle.sha1.specs.Sha1.{sha1};
ghost use Rattle.dsv_dates.specs.Dates.{iso_text};
ghost use Rattle.prop_values.specs.Contents.{text_content, value_content};
ghost use Rattle.prop_values.specs.Subjects.{subject_place, told_revision};
ghost use Rattle.prop_values.specs.LiveValues.{subject_text, kind_content, type_content, discovered_lock, lock_content, modified_content, checked_in_content, live_value};
ghost use Rattle.prop_values.specs.Values.{content_of};

use crate::live::Live;
use crate::subject::{NodePlace, Subject};
use crate::told::Told;
use dsv_base::{Moment, Rev};
use path_locks::Lock;
use rev_nodes::{Kind, Text};

/// The value of a property, which takes no memory of its own.
#[derive(Debug, Drop)]
pub(crate) enum Value<'a> {
    /// Nothing at all.
    Empty,
    /// That it is a directory: `D:collection`.
    Collection,
    /// That it is a revision: `D:baseline`.
    Baseline,
    /// A text that a document can hold.
    Text(&'a [u8]),
    /// Any bytes: written as text where a document can hold them, and else in base64.
    Raw(&'a [u8]),
    /// A number, in decimal.
    Number(u64),
    /// A moment, as Subversion writes it.
    IsoTime(Moment),
    /// A moment, as HTTP writes it.
    HttpTime(Moment),
    /// An MD5, in hexadecimal.
    Md5([u8; 16]),
    /// A SHA-1, in hexadecimal.
    Sha1([u8; 20]),
    /// Where a node of a revision is, below this root.
    CheckedIn(&'a [u8], &'a NodePlace<'a>),
    /// A lock, whose path is below this root.
    Locked(&'a [u8], &'a Lock),
}

/// The value of a live property here, where it has one.
#[tactic(auto, unfolding(crate::specs::LiveValues::live_value))]
pub(crate) fn live_value<'a>(
    told: &'a Told<'a>,
    subject: &'a Subject<'a>,
    live: Live,
) -> Option<Value<'a>>
    ensures { option_map content_of result ≡ live_value told.now subject.now live }
{
    match live {
        Live::ResourceType => Some(type_value(subject)),
        Live::ContentLength => length_value(subject),
        Live::VersionName => Some(revision_value(subject)),
        Live::CreationDate => date_value(told),
        Live::LastModified => modified_value(told, subject),
        Live::CreatorName => author_value(told),
        Live::CheckedIn => checked_in_value(told, subject),
        Live::LockDiscovery => lock_value(told, subject),
        Live::RelativePath => path_value(subject),
        Live::RepositoryUuid => Some(uuid_value(told)),
        Live::Md5Checksum => md5_value(subject),
        Live::Sha1Checksum => sha1_value(subject),
        Live::PropertyCount => count_value(subject),
    }
}

/// The node that has the properties, where that isn't a revision.
fn place_of<'a>(subject: &'a Subject<'a>) -> Option<&'a NodePlace<'a>>
    ensures { option_copied result ≡ subject_place subject.now }
{
    match subject {
        Subject::YoungestNode(place) => Some(place),
        Subject::RevisionNode(place) => Some(place),
        Subject::WholeRevision(_rev) => None,
    }
}

/// The text of a file.
fn file_text<'a>(subject: &'a Subject<'a>) -> Option<&'a Text>
    ensures { option_copied result ≡ subject_text subject.now }
{
    let place = place_of(subject)?;
    match place.node.kind {
        Kind::File => Some(&place.node.text),
        Kind::Dir => None,
    }
}

#[tactic(auto, unfolding(crate::specs::Values::content_of))]
fn kind_value<'a>(kind: Kind) -> Value<'a>
    ensures { content_of result ≡ kind_content kind }
{
    match kind {
        Kind::File => Value::Empty,
        Kind::Dir => Value::Collection,
    }
}

#[tactic(auto, unfolding(crate::specs::Values::content_of))]
fn type_value<'a>(subject: &'a Subject<'a>) -> Value<'a>
    ensures { content_of result ≡ type_content subject.now }
{
    match subject {
        Subject::YoungestNode(place) => kind_value(place.node.kind),
        Subject::RevisionNode(place) => kind_value(place.node.kind),
        Subject::WholeRevision(_rev) => Value::Baseline,
    }
}

#[tactic(auto, unfolding(crate::specs::Values::content_of))]
fn length_value<'a>(subject: &'a Subject<'a>) -> Option<Value<'a>>
    ensures { option_map content_of result
        ≡ option_map (λ text. text_content (decimal (length text))) (subject_text subject.now) }
{
    let text = file_text(subject)?;
    Some(Value::Number(text.get().len() as u64))
}

/// The number of the revision that is told of.
fn told_revision(subject: &Subject<'_>) -> Rev
    ensures { result ≡ told_revision subject.now }
{
    match subject {
        Subject::YoungestNode(place) => place.node.created,
        Subject::RevisionNode(place) => place.node.created,
        Subject::WholeRevision(rev) => *rev,
    }
}

#[tactic(auto, unfolding(crate::specs::Values::content_of))]
fn revision_value<'a>(subject: &'a Subject<'a>) -> Value<'a>
    ensures { content_of result ≡ text_content (decimal (told_revision subject.now)) }
{
    Value::Number(u64::from(told_revision(subject).get()))
}

#[tactic(auto, unfolding(crate::specs::Values::content_of))]
fn date_value<'a>(told: &'a Told<'a>) -> Option<Value<'a>>
    ensures { option_map content_of result
        ≡ option_map (λ moment. text_content (iso_text moment)) told.now.moment }
{
    let moment = told.moment?;
    Some(Value::IsoTime(moment))
}

#[tactic(auto, unfolding(crate::specs::Values::content_of))]
fn modified_value<'a>(told: &'a Told<'a>, subject: &'a Subject<'a>) -> Option<Value<'a>>
    ensures { option_map content_of result
        ≡ option_and_then (modified_content told.now) (subject_place subject.now) }
{
    let _place = place_of(subject)?;
    let moment = told.moment?;
    Some(Value::HttpTime(moment))
}

#[tactic(auto, unfolding(crate::specs::Values::content_of))]
fn author_value<'a>(told: &'a Told<'a>) -> Option<Value<'a>>
    ensures { option_map content_of result ≡ option_map value_content told.now.author }
{
    let author = told.author?;
    Some(Value::Raw(author))
}

#[tactic(auto, unfolding(crate::specs::Values::content_of))]
fn checked_in_value<'a>(told: &'a Told<'a>, subject: &'a Subject<'a>) -> Option<Value<'a>>
    ensures { option_map content_of result
        ≡ option_map (checked_in_content told.now.root) (subject_place subject.now) }
{
    let place = place_of(subject)?;
    Some(Value::CheckedIn(told.root, place))
}

#[tactic(auto, unfolding(crate::specs::Values::content_of))]
fn lock_value<'a>(told: &'a Told<'a>, subject: &'a Subject<'a>) -> Option<Value<'a>>
    ensures { option_map content_of result ≡ discovered_lock told.now subject.now }
{
    match subject {
        Subject::YoungestNode(_place) => Some(lock_told(told)),
        Subject::RevisionNode(_place) => None,
        Subject::WholeRevision(_rev) => None,
    }
}

#[tactic(auto, unfolding(crate::specs::Values::content_of))]
fn lock_told<'a>(told: &'a Told<'a>) -> Value<'a>
    ensures { content_of result ≡ lock_content told.now.root told.now.lock }
{
    match told.lock {
        Some(lock) => Value::Locked(told.root, lock),
        None => Value::Empty,
    }
}

#[tactic(auto, unfolding(crate::specs::Values::content_of))]
fn path_value<'a>(subject: &'a Subject<'a>) -> Option<Value<'a>>
    ensures { option_map content_of result
        ≡ option_map (λ place. text_content (drop 1 place.path)) (subject_place subject.now) }
{
    let place = place_of(subject)?;
    Some(Value::Text(behind_first(place.path.text())))
}

/// What stands behind the first byte.
fn behind_first(text: &[u8]) -> &[u8]
    ensures { result.now ≡ drop 1 text.now }
{
    match text {
        [] => text,
        [_first, rest @ ..] => rest,
    }
}

#[tactic(auto, unfolding(crate::specs::Values::content_of))]
fn uuid_value<'a>(told: &'a Told<'a>) -> Value<'a>
    ensures { content_of result ≡ text_content told.now.uuid }
{
    Value::Text(told.uuid)
}

#[tactic(auto, unfolding(crate::specs::Values::content_of))]
fn md5_value<'a>(subject: &'a Subject<'a>) -> Option<Value<'a>>
    ensures { option_map content_of result
        ≡ option_map (λ text. text_content (encode_lower (md5 text))) (subject_text subject.now) }
{
    let text = file_text(subject)?;
    Some(Value::Md5(text.md5()))
}

#[tactic(auto, unfolding(crate::specs::Values::content_of))]
fn sha1_value<'a>(subject: &'a Subject<'a>) -> Option<Value<'a>>
    ensures { option_map content_of result
        ≡ option_map (λ text. text_content (encode_lower (sha1 text))) (subject_text subject.now) }
{
    let text = file_text(subject)?;
    Some(Value::Sha1(text.sha1()))
}

#[tactic(auto, unfolding(crate::specs::Values::content_of))]
fn count_value<'a>(subject: &'a Subject<'a>) -> Option<Value<'a>>
    ensures { option_map content_of result
        ≡ option_map (λ place. text_content (decimal (length place.node.props))) (subject_place subject.now) }
{
    let place = place_of(subject)?;
    Some(Value::Number(place.node.props.get().len() as u64))
}
