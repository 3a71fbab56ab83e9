ghost use Rattle.std.specs.Prelude.{◌≡◌, IfOk, OnOk};
ghost use Rattle.dav_documents.specs.Drafts.{with_elements};
ghost use Rattle.prop_values.specs.Subjects.{kind_end, resource_of, subject_end, subject_href};
ghost use Rattle.prop_values.specs.LiveValues.{href_element};

use crate::subject::Subject;
use dav_documents::Writer;
use dav_names::{Resource, write_target};
use dsv_base::NoMemory;
use rev_nodes::Kind;
use std::alloc::Global;

/// Writes where a node or a revision is.
pub(crate) fn put_href(
    alloc: Global,
    writer: &mut Writer,
    root: &[u8],
    subject: &Subject<'_>,
) -> Result<(), NoMemory>
    ensures { OnOk result
        (writer.new ≡ with_elements (href_element (subject_href root.now subject.now)) writer.old) }
{
    let href = href_of(alloc, root, subject)?;
    writer.text_element(b"D:href", href.as_slice())
}

fn href_of(alloc: Global, root: &[u8], subject: &Subject<'_>) -> Result<Vec<u8>, NoMemory>
    ensures { IfOk result (λ href. href.items ≡ subject_href root.now subject.now) }
{
    let resource = resource_of(subject)?;
    let mut href = write_target(alloc, root, &resource)?.into_vec()?;
    href.extend_from_slice(subject_end(subject))?;
    Ok(href)
}

/// The resource that it is asked about as.
fn resource_of(subject: &Subject<'_>) -> Result<Resource, NoMemory>
    ensures { IfOk result (λ resource. resource ≡ resource_of subject.now) }
{
    match subject {
        Subject::YoungestNode(place) => Ok(Resource::Public(place.path.copy()?)),
        Subject::RevisionNode(place) => Ok(Resource::Rvr(place.rev, place.path.copy()?)),
        Subject::WholeRevision(rev) => Ok(Resource::RevOnly(*rev)),
    }
}

/// What its address ends with: a slash where it is a directory.
fn subject_end(subject: &Subject<'_>) -> &'static [u8]
    ensures { result.now ≡ subject_end subject.now }
{
    match subject {
        Subject::YoungestNode(place) => kind_end(place.node.kind),
        Subject::RevisionNode(place) => kind_end(place.node.kind),
        Subject::WholeRevision(_rev) => b"",
    }
}

fn kind_end(kind: Kind) -> &'static [u8]
    ensures { result.now ≡ kind_end kind }
{
    match kind {
        Kind::File => b"",
        Kind::Dir => b"/",
    }
}
