ghost use Rattle.std.specs.Prelude.{◌≡◌};
ghost use Rattle.std.specs.List.{list_all, list_any};
ghost use Rattle.std.specs.Option.{option_copied};
ghost use Rattle.authz_check.specs.Access.{can_read};
ghost use Rattle.log_access.specs.Levels.{reads_path, reads_source, reads_whole, level_of};

use crate::level::Level;
use authz_check::Policy;
use rev_nodes::Changed;

/// How much of the record of a revision that changed these paths the user is shown.
///
/// It is [`Level::Full`] where each changed path is readable, and with it the source of its copy, if
/// it has one; so it is where nothing was changed. It is [`Level::None`] where paths were changed of
/// which no one is readable, and else [`Level::Partial`] (Subversion's `svn_repos.h`, at
/// `svn_repos_check_revision_access`). The user is somebody of a name, or nobody.
#[tactic(auto, unfolding(crate::specs::Levels::level_of))]
pub fn level_of(policy: &Policy, user: Option<&[u8]>, changed: &[Changed]) -> Level
    ensures { result
        ≡ level_of (can_read policy.now.rules policy.now.name (option_copied user.entry)) changed.now }
{
    if reads_all(policy, user, changed) {
        return Level::Full;
    }
    if reads_some(policy, user, changed) {
        return Level::Partial;
    }
    Level::None
}

/// Whether the user may read each changed path, and what it was copied from.
fn reads_all(policy: &Policy, user: Option<&[u8]>, changed: &[Changed]) -> bool
    ensures { result
        ≡ list_all (reads_whole (can_read policy.now.rules policy.now.name (option_copied user.entry)))
        changed.now }
{
    changed.iter().all(|path| reads_whole(policy, user, path))
}

/// Whether the user may read one of the changed paths.
fn reads_some(policy: &Policy, user: Option<&[u8]>, changed: &[Changed]) -> bool
    ensures { result
        ≡ list_any (reads_path (can_read policy.now.rules policy.now.name (option_copied user.entry)))
        changed.now }
{
    changed.iter().any(|path| policy.can_read(user, &path.path))
}

/// Whether the user may read a changed path, and what it was copied from.
fn reads_whole(policy: &Policy, user: Option<&[u8]>, changed: &Changed) -> bool
    ensures { result
        ≡ reads_whole (can_read policy.now.rules policy.now.name (option_copied user.entry)) changed.now }
{
    if !policy.can_read(user, &changed.path) {
        return false;
    }
    reads_source(policy, user, changed)
}

/// Whether a changed path was copied from nowhere, or from a path that the user may read.
fn reads_source(policy: &Policy, user: Option<&[u8]>, changed: &Changed) -> bool
    ensures { result
        ≡ reads_source (can_read policy.now.rules policy.now.name (option_copied user.entry)) changed.now }
{
    match &changed.source {
        None => true,
        Some(from) => policy.can_read(user, &from.0),
    }
}
