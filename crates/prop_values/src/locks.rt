ghost use Rattle.std.specs.Prelude.{◌≡◌, [], OnOk, codes};
ghost use Rattle.dav_documents.specs.Drafts.{with_elements};
ghost use Rattle.dav_documents.specs.Written.{empty_element, text_element, element, joined};
ghost use Rattle.dav_names.specs.declared.resource.Resource.TheVariants as resources;
ghost use Rattle.dav_names.specs.Written.{target_text};
ghost use Rattle.prop_values.specs.LiveValues.{href_element, owner_element, lock_element};

use crate::contents::put_raw;
use dav_documents::Writer;
use dav_names::{Resource, write_target};
use dsv_base::{NoMemory, Path};
use path_locks::Lock;
use std::alloc::Global;

/// Writes a lock (RFC 4918, section 14.1).
#[tactic(auto, using(dav_documents::proofs::Trees::with_elements_joined), unfolding(crate::specs::LiveValues::lock_element))]
pub(crate) fn put_lock(
    alloc: Global,
    writer: &mut Writer,
    root: &[u8],
    lock: &Lock,
) -> Result<(), NoMemory>
    ensures { OnOk result (writer.new ≡ with_elements (lock_element root.now lock.now) writer.old) }
{
    writer.start(b"D:activelock")?;
    put_form(writer)?;
    put_words(alloc, writer, lock)?;
    put_root(alloc, writer, root, &lock.path)?;
    writer.end(b"D:activelock")
}

/// What kind of lock each one is: for writing, exclusive, and for its path alone.
fn put_form(writer: &mut Writer) -> Result<(), NoMemory>
    ensures { OnOk result
        (writer.new ≡ with_elements
        (joined (element (codes "D:locktype") [] (empty_element (codes "D:write") []))
        (joined (element (codes "D:lockscope") [] (empty_element (codes "D:exclusive") []))
        (text_element (codes "D:depth") [] (codes "0")))) writer.old) }
{
    writer.start(b"D:locktype")?;
    writer.empty(b"D:write")?;
    writer.end(b"D:locktype")?;
    writer.start(b"D:lockscope")?;
    writer.empty(b"D:exclusive")?;
    writer.end(b"D:lockscope")?;
    writer.text_element(b"D:depth", b"0")
}

/// What its owner said of it, that it has no end, and its token.
#[tactic(auto, using(dav_documents::proofs::Trees::with_elements_joined))]
fn put_words(alloc: Global, writer: &mut Writer, lock: &Lock) -> Result<(), NoMemory>
    ensures { OnOk result
        (writer.new ≡ with_elements
        (joined (owner_element lock.now.comment)
        (joined (text_element (codes "D:timeout") [] (codes "Infinite"))
        (element (codes "D:locktoken") [] (href_element lock.now.token)))) writer.old) }
{
    put_owner(alloc, writer, lock.comment.get())?;
    writer.text_element(b"D:timeout", b"Infinite")?;
    put_token(writer, lock.token.get())
}

#[tactic(auto, unfolding(crate::specs::LiveValues::owner_element))]
fn put_owner(alloc: Global, writer: &mut Writer, comment: &[u8]) -> Result<(), NoMemory>
    ensures { OnOk result
        (writer.new ≡ with_elements (owner_element comment.now) writer.old) }
{
    writer.start(b"D:owner")?;
    put_raw(alloc, writer, comment)?;
    writer.end(b"D:owner")
}

fn put_token(writer: &mut Writer, token: &[u8]) -> Result<(), NoMemory>
    ensures { OnOk result
        (writer.new ≡ with_elements (element (codes "D:locktoken") [] (href_element token.now)) writer.old) }
{
    writer.start(b"D:locktoken")?;
    writer.text_element(b"D:href", token)?;
    writer.end(b"D:locktoken")
}

/// Where its path is in the youngest revision.
fn put_root(alloc: Global, writer: &mut Writer, root: &[u8], path: &Path) -> Result<(), NoMemory>
    ensures { OnOk result
        (writer.new ≡ with_elements
        (element (codes "D:lockroot") [] (href_element (target_text root.now (resources.Public path.now))))
        writer.old) }
{
    let resource = Resource::Public(path.copy()?);
    let target = write_target(alloc, root, &resource)?;
    writer.start(b"D:lockroot")?;
    writer.text_element(b"D:href", target.get())?;
    writer.end(b"D:lockroot")
}
