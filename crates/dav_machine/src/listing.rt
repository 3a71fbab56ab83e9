ghost use Rattle.std.specs.Prelude.{◌≡◌, ◌++◌, IfOk, OnOk, IsTrue, Some, option_to_list};
ghost use Rattle.std.specs.List.{All};
ghost use Rattle.std.specs.Option.{option_copied};
ghost use Rattle.dsv_base.specs.Paths.{is_path, join_text};
ghost use Rattle.rev_nodes.specs.Forests.{id_at};
ghost use Rattle.dav_documents.specs.Drafts.{with_elements};
ghost use Rattle.dav_documents.specs.Written.{for_each};
ghost use Rattle.dav_names.specs.Written.{target_text};
ghost use Rattle.log_access.specs.Shown.{nodes_in};
ghost use Rattle.dav_machine.specs.Listings.{children_in, at_path, slash_of, link_item, listed_item, listing_text};
ghost use Rattle.dav_machine.specs.Presents.{root_in, may_read, shown_to};
ghost use Rattle.dav_machine.specs.ShownEntries.{shown_entry, shown_entries, StandsIn};

use crate::asked_path::AskedPath;
use crate::present::Present;
use dav_documents::Writer;
use dav_names::{Resource, write_target};
use dsv_base::{Bytes, NoMemory, Path, PathFault};
use rev_nodes::{Entry, Kind, NodeId};
use std::alloc::Global;

/// The listing of the directory at the path, whose number this is: a page with a link for each child
/// that the user may read. Its one error is want of memory.
pub fn listing(
    alloc: Global,
    present: &Present,
    user: Option<&[u8]>,
    at: &AskedPath<'_>,
    id: NodeId,
) -> Result<Bytes, NoMemory>
    requires number { id_at present.now.trees at.now.rev at.now.path.now ≡ Some id }
    ensures { IfOk result
        (λ page. page ≡ listing_text (root_in present.now) at.now.resource.now at.now.path.now
        (children_in
        (nodes_in (shown_to present.now (option_copied user.entry)) at.now.rev)
        at.now.path.now)) }
{
    let entries = present.trees().entries(id);
    let mut out = Writer::behind(alloc, b"<html><body><ul>")?;
    put_entries(alloc, &mut out, present, user, at, entries)?;
    out.finish_with(b"</ul></body></html>\n")
}

/// The items of those entries of the directory that the user may read.
fn put_entries(
    alloc: Global,
    out: &mut Writer,
    present: &Present,
    user: Option<&[u8]>,
    at: &AskedPath<'_>,
    entries: &[Entry],
) -> Result<(), NoMemory>
    requires stand { All (StandsIn present.now.trees at.now.rev at.now.path.now) entries.now }
    ensures { OnOk result
        (out.new ≡ with_elements
        (for_each (listed_item (root_in present.now) at.now.resource.now at.now.path.now)
        (shown_entries (may_read present.now (option_copied user.entry))
        present.now.trees at.now.rev at.now.path.now entries.now))
        out.old) }
{
    'entries: for entry in entries {
        put_entry(alloc, out, present, user, at, entry)?;
    }
    Ok(())
}

/// The item of an entry, if the user may read what stands there.
fn put_entry(
    alloc: Global,
    out: &mut Writer,
    present: &Present,
    user: Option<&[u8]>,
    at: &AskedPath<'_>,
    entry: &Entry,
) -> Result<(), NoMemory>
    requires stands { StandsIn present.now.trees at.now.rev at.now.path.now entry.now }
    ensures { OnOk result
        (out.new ≡ with_elements
        (for_each (listed_item (root_in present.now) at.now.resource.now at.now.path.now)
        (option_to_list
        (shown_entry (may_read present.now (option_copied user.entry))
        present.now.trees at.now.rev at.now.path.now entry.now)))
        out.old) }
{
    let path = child_path(at.path, entry.name.get())?;
    if !present.can_read(user, &path) {
        return Ok(());
    }
    let kind = present.trees().node(entry.id).kind;
    let child = at_path(at.resource, path);
    put_item(alloc, out, present.root(), &child, entry.name.get(), kind)
}

/// The item of a child: a link to it, with its name.
fn put_item(
    alloc: Global,
    out: &mut Writer,
    root: &[u8],
    child: &Resource,
    name: &[u8],
    kind: Kind,
) -> Result<(), NoMemory>
    ensures { OnOk result
        (out.new ≡ with_elements
        (link_item (target_text root.now child.now ++ slash_of kind) (name.now ++ slash_of kind)) out.old) }
{
    let mut href = write_target(alloc, root, child)?.into_vec()?;
    href.extend_from_slice(slash_of(kind))?;
    let mut text = Vec::from_slice(alloc, name)?;
    text.extend_from_slice(slash_of(kind))?;
    put_link(out, href.as_slice(), text.as_slice())
}

fn put_link(out: &mut Writer, href: &[u8], text: &[u8]) -> Result<(), NoMemory>
    ensures { OnOk result (out.new ≡ with_elements (link_item href.now text.now) out.old) }
{
    out.start(b"li")?;
    out.start(b"a")?;
    out.attribute(b"href", href)?;
    out.text(text)?;
    out.end(b"a")?;
    out.end(b"li")
}

/// A directory's name ends with a slash.
fn slash_of(kind: Kind) -> &'static [u8]
    ensures { result.now ≡ slash_of kind }
{
    match kind {
        Kind::File => b"",
        Kind::Dir => b"/",
    }
}

/// The path of an entry of the directory, which is one.
fn child_path(directory: &Path, name: &[u8]) -> Result<Path, NoMemory>
    requires { IsTrue (is_path (join_text directory.now name.now)) }
    ensures { IfOk result (λ path. path ≡ join_text directory.now name.now) }
{
    match directory.join(name) {
        Ok(path) => Ok(path),
        Err(PathFault::BadPath) => unreachable!(),
        Err(PathFault::NoMemory) => Err(NoMemory),
    }
}

/// Another path of the resource's revision.
fn at_path(resource: &Resource, path: Path) -> Resource
    ensures { result ≡ at_path resource.now path }
{
    match resource {
        Resource::Rvr(rev, _) => Resource::Rvr(*rev, path),
        _ => Resource::Public(path),
    }
}
