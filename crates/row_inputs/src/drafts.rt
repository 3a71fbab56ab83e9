ghost use Rattle.std.specs.Prelude.{length, ◌<◌};
ghost use Rattle.rev_trees.specs.Drafts.{IsGrown};

use crate::nodes::kind_word;
use dsv_base::{Path, Rev};
use rev_nodes::{Change, Unfit};
use rev_trees::{Draft, Seen, Trees};
use row_files::{Answer, Given};

/// The changes of a revision's commit are tried in a draft on another: each that doesn't fit, by its
/// number and why, ended by `;`, and then what stands at a path of the draft.
pub fn put_draft(trees: &Trees, base: Rev, given: &Given<'_>, out: &mut Answer)
    requires { base < length trees.now.revisions }
{
    match (given.revision(2), given.path(3)) {
        (Some(rev), Some(path)) if rev <= trees.youngest() => match Draft::on(
            given.alloc,
            trees,
            base,
        ) {
            Ok(draft) => {
                let draft = tried(trees, draft, trees.commit_of(rev).changes.get(), out);
                put_seen(draft.look(trees, &path), out);
            }
            Err(_) => out.give_up(),
        },
        _ => out.give_up(),
    }
}

fn tried(trees: &Trees, draft: Draft, changes: &[Change], out: &mut Answer) -> Draft
    requires { IsGrown draft.trees trees.now }
    ensures { IsGrown result.trees trees.now }
{
    let mut draft = draft;
    'changes: for (number, change) in changes.iter().enumerate() {
        if let Err(why) = draft.apply(trees, change) {
            out.put_number(number as u64);
            out.put(b" ");
            out.put(unfit_word(why));
            out.put(b";");
        }
    }
    draft
}

fn put_seen(seen: Option<Seen>, out: &mut Answer) {
    match seen {
        None => out.put(b"none"),
        Some(seen) => {
            out.put(kind_word(seen.kind));
            match seen.created {
                None => out.put(b" touched"),
                Some(created) => {
                    out.put(b" of ");
                    out.put_number(u64::from(created.get()));
                }
            }
        }
    }
}

fn unfit_word(why: Unfit) -> &'static [u8] {
    match why {
        Unfit::NoNode => b"no node",
        Unfit::IsRoot => b"the root",
        Unfit::Exists => b"something is there",
        Unfit::NoParent => b"no parent",
        Unfit::TooLong => b"too long",
        Unfit::NoMemory => b"no memory",
    }
}
