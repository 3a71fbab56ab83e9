ghost use Rattle.std.specs.Prelude.{◌≡◌, ◌+◌, ◌<◌, ◌≤◌, [], ⊤, MatchBool, length, slice_index_or, IfOk, OnOk};
ghost use Rattle.dsv_base.specs.Gives.{Gives, GivesBy};
ghost use Rattle.rev_nodes.specs.Pushes.{pushed};
ghost use Rattle.rev_nodes.specs.Forests.{repository_of};
ghost use Rattle.rev_trees.specs.Readies.{revisions_of, IsUnchanged};
ghost use Rattle.rev_nodes.specs.Commits.{IsSoundCommit};
ghost use Rattle.rev_scripts.specs.Scripts.{commit_of, at_change, revisions_from, repository_from, wants_memory};
ghost use Rattle.rev_scripts.specs.Reading.{zeroth_from, next_from, FirstFault, PreparesTold, with_revisions};

use crate::reader::{heading_from, line_after, read_items, revision_head};
use crate::script_fault::ScriptFault;
use crate::told::Told;
use dsv_base::{Bytes, Moment, Rev};
use rev_nodes::Commit;
use rev_trees::{PushFault, Ready, Trees};
use std::alloc::Global;

/// The repository that a script of at most 268,435,456 bytes tells.
///
/// The script is davsvn's own text form of a repository (docs/FORMATS.md).
/// [`ScriptFault::BadScript`] names the line where the first item begins, from the top, that is not
/// in the grammar or doesn't fit. Its texts, names and values are held together with the script.
#[tactic(auto, unfolding(crate::specs::Scripts::repository_from))]
pub fn read_script(alloc: Global, bytes: &Bytes) -> Result<Trees, ScriptFault>
    requires { length bytes.now ≤ 268435456 }
    ensures { GivesBy repository_of wants_memory result (repository_from bytes.now) }
{
    let (name, uuid, rest) = heading_from(bytes)?;
    let (zeroth, line, rest) = zeroth_from(alloc, &rest)?;
    let trees = Trees::new(alloc, name.get(), uuid.get(), zeroth)?;
    read_others(alloc, trees, line, rest)
}

/// The commit of revision 0, which stands after the head of a script, and the line and the text
/// after it.
fn zeroth_from(alloc: Global, text: &Bytes) -> Result<(Commit, u32, Bytes), ScriptFault>
    requires { length text.now ≤ 268435456 }
    ensures value { Gives wants_memory result (zeroth_from text.now) }
    ensures none { IfOk result (λ x. x.0.changes ≡ []) }
    ensures sound { IfOk result (λ x. IsSoundCommit x.0) }
    ensures room { IfOk result (λ x. x.1 + length x.2 ≤ 4 + length text.now) }
    ensures shorter { IfOk result (λ x. length x.2 ≤ length text.now) }
{
    let (moment, author, rest) = match revision_head(zeroth(), text) {
        Ok(head) => head,
        Err(fault) => return Err(fault.at(4)),
    };
    let line = line_after(4, text, &rest);
    let mut told = Told::new(alloc);
    let (line, rest) = read_items(zeroth(), &mut told, line, rest)?;
    let (commit, _) = told.into_commit(author, moment);
    Ok((commit, line, rest))
}

/// The trees with all revisions of the text, which begins at this line.
fn read_others(alloc: Global, trees: Trees, line: u32, text: Bytes) -> Result<Trees, ScriptFault>
    requires room { line + length text ≤ 4294967295 }
    requires few { length trees.revisions + length text ≤ 2000000000 }
    ensures { GivesBy repository_of wants_memory result
        (with_revisions trees (revisions_from (length text) (revisions_of trees) line text)) }
{
    let mut trees = trees;
    let mut begins = line;
    let mut rest = text;
    'revisions: while !rest.get().is_empty() {
        let (next, after) = push_revision(alloc, &mut trees, begins, &rest)?;
        begins = next;
        rest = after;
    }
    Ok(trees)
}

/// Pushes the first revision of the text, which begins at this line: the line and the text after
/// it. A change that doesn't fit stands before the fault of a later item.
fn push_revision(
    alloc: Global,
    trees: &mut Trees,
    line: u32,
    text: &Bytes,
) -> Result<(u32, Bytes), ScriptFault>
    requires room { line + length text.now ≤ 4294967295 }
    requires few { length trees.old.revisions ≤ 2000000000 }
    ensures value { GivesBy (λ x. (revisions_of trees.new, x.0, x.1)) wants_memory result
        (next_from (revisions_of trees.old) line text.now) }
    ensures name { OnOk result (trees.new.name ≡ trees.old.name) }
    ensures uuid { OnOk result (trees.new.uuid ≡ trees.old.uuid) }
    ensures more { OnOk result (length trees.new.revisions ≡ length trees.old.revisions + 1) }
    ensures room { IfOk result (λ x. x.0 + length x.1 ≤ line + length text.now) }
    ensures shorter { IfOk result (λ x. length x.1 < length text.now) }
{
    let number = next_number(trees);
    let (moment, author, rest) = match revision_head(number, text) {
        Ok(head) => head,
        Err(fault) => return Err(fault.at(line)),
    };
    let begins = line_after(line, text, &rest);
    let mut told = Told::new(alloc);
    let read = read_items(number, &mut told, begins, rest);
    let (next, after) = match read {
        Ok(after) => after,
        Err(fault) => return Err(first_fault(trees, told, author, moment, fault)),
    };
    let ready = prepare_told(trees, told, author, moment)?;
    trees.push_ready(ready);
    Ok((next, after))
}

/// The first fault of a revision whose items told so much before this one: a change that doesn't
/// fit, or this one.
fn first_fault(
    trees: &mut Trees,
    told: Told,
    author: Bytes,
    moment: Moment,
    fault: ScriptFault,
) -> ScriptFault
    requires changes { MatchBool (wants_memory fault) ⊤ (length told.changes ≤ 4294967295) }
    requires sound { MatchBool (wants_memory fault) ⊤ (IsSoundCommit (commit_of author moment told)) }
    requires few { length trees.old.revisions ≤ 2000000000 }
    ensures { FirstFault
        (at_change told.lines (pushed (revisions_of trees.old) (commit_of author moment told))) fault result }
{
    match fault {
        ScriptFault::NoMemory => ScriptFault::NoMemory,
        ScriptFault::BadScript { line } => match prepare_told(trees, told, author, moment) {
            Ok(_) => ScriptFault::BadScript { line },
            Err(unfit) => unfit,
        },
    }
}

/// The number of the next revision.
fn next_number(trees: &Trees) -> Rev
    requires { length trees.now.revisions ≤ 2000000000 }
    ensures { result ≡ length trees.now.revisions }
{
    match Rev::of(trees.youngest().get() + 1) {
        Some(rev) => rev,
        None => unreachable!(),
    }
}

/// Prepares the commit that the items of a revision told, or names the line of the first change
/// that doesn't fit.
fn prepare_told(
    trees: &mut Trees,
    told: Told,
    author: Bytes,
    moment: Moment,
) -> Result<Ready, ScriptFault>
    requires changes { length told.changes ≤ 4294967295 }
    requires sound { IsSoundCommit (commit_of author moment told) }
    requires few { length trees.old.revisions ≤ 2000000000 }
    ensures kept { IsUnchanged trees.old trees.new }
    ensures says { PreparesTold told.lines (commit_of author moment told) trees.old trees.new result }
{
    let (commit, lines) = told.into_commit(author, moment);
    match trees.prepare(commit) {
        Ok(ready) => Ok(ready),
        Err(PushFault::Unfit { index }) => Err(ScriptFault::BadScript {
            line: line_of(lines.as_slice(), index),
        }),
        Err(PushFault::FullRevisions) => Err(ScriptFault::NoMemory),
        Err(PushFault::NoMemory) => Err(ScriptFault::NoMemory),
    }
}

/// The line of the change of this number. Each change has one: the 0 past the last is never told.
fn line_of(lines: &[u32], index: u32) -> u32
    ensures { result ≡ slice_index_or lines.now index 0 }
{
    match lines.get(index as usize) {
        Some(line) => *line,
        None => 0,
    }
}

/// The number of the first revision.
fn zeroth() -> Rev
    ensures { result ≡ 0 }
{
    match Rev::of(0) {
        Some(rev) => rev,
        None => unreachable!(),
    }
}
