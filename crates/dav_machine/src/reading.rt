ghost use Rattle.std.specs.Prelude.{◌≡◌, ◌-◌, ◌<◌, IfOk, true, Ok, Some, length, option_to_list};
ghost use Rattle.std.specs.Option.{option_copied};
ghost use Rattle.dsv_base.specs.Gives.{Gives};
ghost use Rattle.rev_nodes.specs.Forests.{id_at};
ghost use Rattle.dav_replies.specs.Faults.{refusal_no_memory};
ghost use Rattle.dav_replies.specs.Replies.{IsWritable};
ghost use Rattle.dav_machine.specs.Chains.{aim_of, permit_of};
ghost use Rattle.prop_requests.specs.Sights.{IsAskable};
ghost use Rattle.dav_machine.specs.Presents.{root_in, may_read, sight_to, IsThere, MayRead, shown_to, view_to};
ghost use Rattle.dav_machine.specs.Options.{options_reply};
ghost use Rattle.dav_machine.specs.ReadReplies.{read_answer, asked_reply, content_at, get_reply, by_revisions};

use crate::aim::aim_of;
use crate::asked::Asked;
use crate::asked_path::AskedPath;
use crate::listing::listing;
use crate::media::media_type;
use crate::options::options_reply;
use crate::present::Present;
use crate::properties::propfind_reply;
use crate::replies::content_reply;
use dav_names::Resource;
use dav_replies::{Client, Refusal};
use dsv_base::{Path, Reply, Rev};
use rev_nodes::{Kind, NodeId};
use rev_trees::Trees;
use std::alloc::Global;

/// What is answered to a reading request that was let through: the revisions that are named, then the
/// node that is needed, then the reply.
#[tactic(auto, unfolding(crate::specs::ReadReplies::read_answer, log_access::specs::Shown::shown_of))]
pub fn read_answer(
    alloc: Global,
    present: &Present,
    user: Option<&[u8]>,
    asked: &Asked,
    resource: &Resource,
) -> Result<Reply, Refusal>
    requires readable { MayRead present.now (option_copied user) (aim_of asked.now resource.now).path }
    ensures value { Gives refusal_no_memory result
        (read_answer (view_to present.now (option_copied user.entry)) (permit_of resource.now asked.now)) }
    ensures writable { IfOk result IsWritable }
{
    let aim = aim_of(asked, resource);
    let rev = by_revisions(present.trees(), aim.revision)?;
    asked_reply(alloc, present, user, asked, resource, rev, aim.path)
}

/// The revision that is meant: the one that is named, which has to be there, or the youngest.
fn by_revisions(trees: &Trees, named: Option<Rev>) -> Result<Rev, Refusal>
    ensures value { Gives refusal_no_memory result
        (by_revisions (length trees.now.revisions - 1) (option_to_list named) named) }
    ensures there { IfOk result (λ rev. rev < length trees.now.revisions) }
    ensures named { IfOk result (λ rev. IsThere (length trees.now.revisions) named) }
{
    let youngest = trees.youngest();
    match named {
        None => Ok(youngest),
        Some(rev) => {
            if rev.get() > youngest.get() {
                return Err(Refusal::NoRevision { rev });
            }
            Ok(rev)
        }
    }
}

/// What is answered of this revision and path, by what is asked for.
#[tactic(auto, using(crate::proofs::Getting::options_shown, crate::proofs::Asking::propfind_shown))]
fn asked_reply(
    alloc: Global,
    present: &Present,
    user: Option<&[u8]>,
    asked: &Asked,
    resource: &Resource,
    rev: Rev,
    path: Option<&Path>,
) -> Result<Reply, Refusal>
    requires readable { MayRead present.now (option_copied user) (option_copied path) }
    requires there { rev < length present.now.trees.revisions }
    requires askable { IsAskable (sight_to present.now (option_copied user)) resource.now }
    ensures value { Gives refusal_no_memory result
        (asked_reply (view_to present.now (option_copied user.entry))
        asked.now resource.now rev (option_copied path.entry)) }
    ensures writable { IfOk result IsWritable }
{
    match asked {
        Asked::Options { client } => what_the_server_can(alloc, present, *client),
        Asked::Get => content_at(alloc, present, user, resource, rev, path),
        Asked::Head => content_at(alloc, present, user, resource, rev, path),
        Asked::Propfind { children, wanted } => {
            propfind_reply(alloc, present, user, resource, *children, wanted)
        }
    }
}

/// What the server can do, and where its resources are.
fn what_the_server_can(alloc: Global, present: &Present, client: Client) -> Result<Reply, Refusal>
    ensures value { Gives refusal_no_memory result
        (Ok (options_reply client (root_in present.now) present.now.trees.uuid
        (length present.now.trees.revisions - 1))) }
    ensures writable { IfOk result IsWritable }
{
    let trees = present.trees();
    Ok(options_reply(
        alloc,
        client,
        present.root(),
        trees.uuid(),
        trees.youngest(),
    )?)
}

/// The content of the node at the path, where the resource names one.
fn content_at(
    alloc: Global,
    present: &Present,
    user: Option<&[u8]>,
    resource: &Resource,
    rev: Rev,
    path: Option<&Path>,
) -> Result<Reply, Refusal>
    requires readable { MayRead present.now (option_copied user) (option_copied path) }
    requires there { rev < length present.now.trees.revisions }
    ensures value { Gives refusal_no_memory result
        (content_at (shown_to present.now (option_copied user.entry))
        resource.now rev (option_copied path.entry)) }
    ensures writable { IfOk result IsWritable }
{
    match path {
        None => Err(Refusal::NoNode),
        Some(path) => {
            let asked_path = AskedPath::of(resource, rev, path);
            get_reply(alloc, present, user, &asked_path)
        }
    }
}

/// The content of the node at the path, where one stands there.
fn get_reply(
    alloc: Global,
    present: &Present,
    user: Option<&[u8]>,
    at: &AskedPath<'_>,
) -> Result<Reply, Refusal>
    requires readable { may_read present.now (option_copied user) at.now.path.now ≡ true }
    requires there { at.now.rev < length present.now.trees.revisions }
    ensures value { Gives refusal_no_memory result
        (get_reply (shown_to present.now (option_copied user.entry))
        at.now.resource.now at.now.rev at.now.path.now) }
    ensures writable { IfOk result IsWritable }
{
    match present.trees().look(at.rev, at.path) {
        Some(id) => node_reply(alloc, present, user, at, id),
        None => Err(Refusal::NoNode),
    }
}

/// The content of the node of this number, which stands at the path: a file's text, or the listing
/// of a directory's readable children.
fn node_reply(
    alloc: Global,
    present: &Present,
    user: Option<&[u8]>,
    at: &AskedPath<'_>,
    id: NodeId,
) -> Result<Reply, Refusal>
    requires readable { may_read present.now (option_copied user) at.now.path.now ≡ true }
    requires number { id_at present.now.trees at.now.rev at.now.path.now ≡ Some id }
    ensures value { Gives refusal_no_memory result
        (get_reply (shown_to present.now (option_copied user.entry))
        at.now.resource.now at.now.rev at.now.path.now) }
    ensures writable { IfOk result IsWritable }
{
    let node = present.trees().node(id);
    match node.kind {
        Kind::File => {
            let text = node.text.bytes(alloc)?;
            Ok(content_reply(alloc, media_type(node.props.get()), text)?)
        }
        Kind::Dir => {
            let page = listing(alloc, present, user, at, id)?;
            Ok(content_reply(alloc, b"text/html; charset=\"utf-8\"", page)?)
        }
    }
}
