ghost use Rattle.std.specs.Prelude.{◌≡◌, ℕ, Bool, IfOk, None};
ghost use Rattle.dsv_base.specs.Gives.{GivesBy};
ghost use Rattle.dav_replies.specs.Faults.{refusal_no_memory};
ghost use Rattle.dav_replies.specs.Replies.{IsWritable};
ghost use Rattle.dav_machine.specs.AllReplies.{answered, reply_to};
ghost use Rattle.dav_machine.specs.Presents.{state_of};

use crate::chain::permitted;
use crate::client::client_of;
use crate::present::Present;
use crate::reading::read_answer;
use dav_replies::{Refusal, refusal_reply};
use dsv_base::{NoMemory, Reply};
use http_front::Request;
use std::alloc::Global;

/// The reply to any request, whatever the moment: what is answered, or the first refusal that holds. As yet
/// no request changes anything.
///
/// # Errors
/// Want of memory.
#[tactic(auto, unfolding(crate::specs::AllReplies::reply_to))]
pub fn reply_to(alloc: Global, present: &Present, request: &Request) -> Result<Reply, NoMemory>
    ensures value { IfOk result
        (λ reply. (moment : ℕ) (kept : Bool)
        → reply_to (state_of present.now) request.now moment kept ≡ (reply, None)) }
    ensures writable { IfOk result IsWritable }
{
    match answered(alloc, present, request) {
        Ok(reply) => Ok(reply),
        Err(Refusal::NoMemory) => Err(NoMemory),
        Err(refusal) => refusal_reply(alloc, client_of(request), &refusal),
    }
}

/// What is answered, or the first refusal that holds.
#[tactic(auto, unfolding(crate::specs::AllReplies::answered))]
fn answered(alloc: Global, present: &Present, request: &Request) -> Result<Reply, Refusal>
    ensures value { (moment : ℕ) (kept : Bool)
        → GivesBy (λ reply. (reply, None)) refusal_no_memory result
        (answered (state_of present.now) request.now moment kept) }
    ensures writable { IfOk result IsWritable }
{
    let permit = permitted(alloc, present, request)?;
    read_answer(alloc, present, permit.user, &permit.asked, &permit.resource)
}
