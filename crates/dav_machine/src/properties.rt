ghost use Rattle.std.specs.Prelude.{IfOk};
ghost use Rattle.std.specs.Option.{option_copied};
ghost use Rattle.dsv_base.specs.Gives.{Gives};
ghost use Rattle.dav_replies.specs.Faults.{refusal_no_memory};
ghost use Rattle.dav_replies.specs.Replies.{IsWritable};
ghost use Rattle.prop_requests.specs.Propfinds.{propfind_answer};
ghost use Rattle.prop_requests.specs.Sights.{sources_by, IsAskable};
ghost use Rattle.dav_machine.specs.Presents.{sight_to};
ghost use Rattle.dav_machine.specs.ReadReplies.{propfind_reply};

use crate::present::Present;
use dav_bodies::Wanted;
use dav_names::Resource;
use dav_replies::{Refusal, multistatus_reply};
use dsv_base::Reply;
use prop_requests::{PropfindFault, propfind};
use std::alloc::Global;

/// The properties that are wanted of what the resource names, and where they are asked too, of its
/// children.
pub fn propfind_reply(
    alloc: Global,
    present: &Present,
    user: Option<&[u8]>,
    resource: &Resource,
    children: bool,
    wanted: &Wanted,
) -> Result<Reply, Refusal>
    requires askable { IsAskable (sight_to present.now (option_copied user)) resource.now }
    ensures value { Gives refusal_no_memory result
        (propfind_reply (propfind_answer (sources_by (sight_to present.now (option_copied user.entry)))
        resource.now children wanted.now)) }
    ensures writable { IfOk result IsWritable }
{
    match propfind(alloc, &present.sight(user), resource, children, wanted) {
        Ok(document) => Ok(multistatus_reply(alloc, document)?),
        Err(PropfindFault::NoNode) => Err(Refusal::NoNode),
        Err(PropfindFault::NoMemory) => Err(Refusal::NoMemory),
    }
}
