ghost use Rattle.std.specs.Prelude.{◌≡◌, ◌<◌, ◌∷◌, true, IfOk, Ok, Some, [], length};
ghost use Rattle.std.specs.List.{All};
ghost use Rattle.dav_documents.specs.Written.{body_text};
ghost use Rattle.dsv_base.specs.Gives.{Gives};
ghost use Rattle.rev_nodes.specs.Forests.{id_at, IsId};
ghost use Rattle.rev_nodes.specs.Entries.{IsSound};
ghost use Rattle.prop_values.specs.Subjects.{place_in};
ghost use Rattle.prop_values.specs.declared.subject.Subject.TheVariants.{WholeRevision};
ghost use Rattle.prop_requests.specs.Entered.{entry_subjects, IsEntered, AreAskedEntries, CanBeTold};
ghost use Rattle.prop_requests.specs.Multistatus.{multistatus_tree, propfind_text};
ghost use Rattle.prop_requests.specs.Propfinds.{is_free_of_propfind, wanted_names, or_no_such_node, about_place, propfind_answer};
ghost use Rattle.prop_requests.specs.Sights.{sees, sources_by, IsAskable};

use crate::asked_as::AskedAs;
use crate::propfind_fault::PropfindFault;
use crate::sight::Sight;
use crate::spot::Spot;
use crate::telling::{Telling, node_of};
use dav_bodies::Wanted;
use dav_documents::Writer;
use dav_names::Resource;
use dsv_base::{Bytes, NoMemory, Rev};
use prop_values::{Query, Subject};
use rev_nodes::{Entry, NodeId};
use rev_trees::Trees;
use std::alloc::Global;

/// What a PROPFIND answers about a resource, and where they are asked too about its children, each with
/// the properties that are wanted (RFC 4918, section 9.1).
///
/// Of nodes, of the records of revisions and of locks nothing is told but what the user is shown.
/// [`PropfindFault::NoNode`] comes exactly where the user is shown no such node.
#[tactic(auto, unfolding(crate::specs::Propfinds::propfind_answer))]
pub fn propfind(
    alloc: Global,
    sight: &Sight<'_>,
    resource: &Resource,
    children: bool,
    wanted: &Wanted,
) -> Result<Bytes, PropfindFault>
    requires { IsAskable sight.now resource.now }
    ensures { Gives is_free_of_propfind result
        (propfind_answer (sources_by sight.now) resource.now children wanted.now) }
{
    let query = query_of(alloc, wanted)?;
    answer_about(alloc, sight, &query, resource, children)
}

/// The names of the properties that are wanted, each looked up.
fn query_of(alloc: Global, wanted: &Wanted) -> Result<Query<'_>, NoMemory>
    ensures { IfOk result (λ query. query ≡ wanted_names wanted.now) }
{
    match wanted {
        Wanted::All => Ok(Query::all()),
        Wanted::These(names) => Query::these(alloc, names.get()),
    }
}

/// What is answered about a resource.
fn answer_about(
    alloc: Global,
    sight: &Sight<'_>,
    query: &Query<'_>,
    resource: &Resource,
    children: bool,
) -> Result<Bytes, PropfindFault>
    requires { IsAskable sight.now resource.now }
    ensures { Gives is_free_of_propfind result
        (or_no_such_node (propfind_text (sources_by sight.now) resource.now children query.now)) }
{
    match resource {
        Resource::Public(path) => {
            let spot = Spot::of(AskedAs::Youngest, sight.trees().youngest(), path);
            answer_at(alloc, sight, query, &spot, children)
        }
        Resource::Rvr(rev, path) => {
            let spot = Spot::of(AskedAs::Named, *rev, path);
            answer_at(alloc, sight, query, &spot, children)
        }
        Resource::RevOnly(rev) => Ok(revision_document(alloc, sight, query, *rev)?),
        Resource::Me => Err(PropfindFault::NoNode),
        Resource::Txr(_, _) => Err(PropfindFault::NoNode),
        Resource::Txn(_) => Err(PropfindFault::NoNode),
    }
}

/// What is answered about the node at a spot.
fn answer_at(
    alloc: Global,
    sight: &Sight<'_>,
    query: &Query<'_>,
    spot: &Spot<'_>,
    children: bool,
) -> Result<Bytes, PropfindFault>
    requires readable { sees sight.now spot.now.path ≡ true }
    requires there { spot.now.rev < length sight.now.trees.revisions }
    ensures { Gives is_free_of_propfind result
        (about_place (sources_by sight.now) spot.now.asked children query.now
        (place_in (sources_by sight.now) spot.now.rev spot.now.path)) }
{
    match sight.trees().look(spot.rev, spot.path) {
        None => Err(PropfindFault::NoNode),
        Some(id) => Ok(node_document(alloc, sight, query, spot, id, children)?),
    }
}

/// The document about the node of this number, which stands at the spot.
fn node_document(
    alloc: Global,
    sight: &Sight<'_>,
    query: &Query<'_>,
    spot: &Spot<'_>,
    id: NodeId,
    children: bool,
) -> Result<Bytes, NoMemory>
    requires readable { sees sight.now spot.now.path ≡ true }
    requires number { id_at sight.now.trees spot.now.rev spot.now.path ≡ Some id }
    ensures { IfOk result (λ text. about_place (sources_by sight.now) spot.now.asked children query.now
        (place_in (sources_by sight.now) spot.now.rev spot.now.path) ≡ Ok text) }
{
    let node = node_of(sight.trees(), id);
    let entries = entries_of(sight.trees(), id, children);
    tree_document(alloc, sight, query, spot, &spot.subject(node), entries)
}

/// The entries of a node, where its children are asked too.
fn entries_of(trees: &Trees, id: NodeId, children: bool) -> &[Entry]
    requires { IsId trees.now id }
    ensures sound { IsSound trees.now }
    ensures are { AreAskedEntries trees.now id children result.now }
{
    let entries = trees.entries(id);
    if children { entries } else { &[] }
}

/// The document about a subject at a spot, and about what these entries of it name.
fn tree_document(
    alloc: Global,
    sight: &Sight<'_>,
    query: &Query<'_>,
    spot: &Spot<'_>,
    subject: &Subject<'_>,
    entries: &[Entry],
) -> Result<Bytes, NoMemory>
    requires can { CanBeTold sight.now subject.now }
    requires entered { All (IsEntered sight.now spot.now) entries.now }
    ensures { IfOk result (λ text. text ≡ body_text (multistatus_tree (sources_by sight.now) query.now
        (subject.now ∷ entry_subjects sight.now spot.now entries.now))) }
{
    let mut writer = Writer::body(alloc)?;
    Telling::of(alloc, sight, query).write_node(&mut writer, spot, subject, entries)?;
    writer.finish()
}

/// The document about a revision.
fn revision_document(
    alloc: Global,
    sight: &Sight<'_>,
    query: &Query<'_>,
    rev: Rev,
) -> Result<Bytes, NoMemory>
    requires { rev < length sight.now.trees.revisions }
    ensures { IfOk result (λ text. text ≡ body_text (multistatus_tree (sources_by sight.now) query.now
        (WholeRevision rev ∷ []))) }
{
    let mut writer = Writer::body(alloc)?;
    Telling::of(alloc, sight, query).write_revision(&mut writer, rev)?;
    writer.finish()
}
