ghost use Rattle.std.specs.Prelude.{◌≡◌};
ghost use Rattle.std.specs.Option.{option_copied};
ghost use Rattle.dsv_outside.specs.Causes.{Rose};
ghost use Rattle.davsvn_run.specs.Asking.{right_everywhere, right_by, right_line, is_expected, judged};
ghost use Rattle.davsvn_run.specs.Runs.{AskSays, TellSays};
ghost use Rattle.davsvn_run.specs.Words.{question_in};
ghost use Rattle.davsvn_run.specs.Worlds.{IsUnread, IsUnreported, KeepsNothing};

use crate::command::Question;
use crate::end::End;
use crate::opening::{end_of, open_rules};
use crate::world::World;
use authz_check::Policy;
use authz_file::Right;
use dsv_base::{NoMemory, Path};
use dsv_outside::{Clock, Files, Keeper, Put, Sink, Source};
use std::alloc::Global;

/// Reads the rules file and prints the right that is asked for.
pub fn access_of<S: Source, K: Sink, E: Sink, C: Clock, F: Files, P: Keeper>(
    alloc: Global,
    question: Question<'_>,
    path: &Path,
    mut world: World<S, K, E, C, F, P>,
) -> (End, World<S, K, E, C, F, P>)
    ensures says { AskSays (question_in question.entry) path.now world result.1 result.0 }
    ensures unread { IsUnread world result.1 }
    ensures contents { result.1.told.contents ≡ world.told.contents }
    ensures kept { KeepsNothing world.told result.1.told }
    ensures unreported { IsUnreported world result.1 }
{
    let rules = match open_rules(alloc, &mut world.files, question.rules) {
        Ok(rules) => rules,
        Err(why) => return (end_of(alloc, question.rules, why), world),
    };
    let policy = match Policy::new(alloc, &rules, question.repos) {
        Ok(policy) => policy,
        Err(NoMemory) => return (End::NoMemory, world),
    };
    let right = right_by(&policy, question.user, path, question.recursive);
    let end = tell(right, question.expected, &mut world.sink);
    (end, world)
}

/// The user's right at the path, or the one that is held at every path under it, too.
fn right_by(policy: &Policy, user: Option<&[u8]>, path: &Path, recursive: bool) -> Right
    ensures { result ≡
        right_by policy.now.rules policy.now.name (option_copied user.entry) path.now recursive }
{
    if recursive {
        right_everywhere(policy, user, path)
    } else {
        policy.access(user, path)
    }
}

fn right_everywhere(policy: &Policy, user: Option<&[u8]>, path: &Path) -> Right
    ensures { result ≡ right_everywhere policy.now.rules policy.now.name (option_copied user.entry) path.now }
{
    if policy.all_access(user, path, Right::Write) {
        return Right::Write;
    }
    if policy.all_access(user, path, Right::Read) {
        return Right::Read;
    }
    Right::No
}

/// Puts the right, and compares it with the one that was expected.
fn tell<K: Sink>(right: Right, expected: Option<Right>, sink: &mut K) -> End
    ensures { TellSays expected right (K.taken sink.old) (K.taken sink.new)
        (Rose (K.faults sink.old) (K.faults sink.new)) result }
{
    match sink.put(right_line(right)) {
        Put::Done => judged(right, expected),
        Put::Failed => End::WriteFault,
        Put::NoMemory => End::NoMemory,
    }
}

fn judged(right: Right, expected: Option<Right>) -> End
    ensures { result ≡ judged (is_expected expected right) }
{
    if is_expected(expected, right) {
        End::Well
    } else {
        End::OtherRight
    }
}

fn right_line(right: Right) -> &'static [u8]
    ensures { result.now ≡ right_line right }
{
    match right {
        Right::No => b"no\n",
        Right::Read => b"r\n",
        Right::Write => b"rw\n",
    }
}

fn is_expected(expected: Option<Right>, right: Right) -> bool
    ensures { result ≡ is_expected expected right }
{
    match expected {
        None => true,
        Some(expected) => expected == right,
    }
}
