ghost use Rattle.std.specs.Prelude.{◌≡◌, ◌<◌, true, length};
ghost use Rattle.std.specs.Option.{option_copied};
ghost use Rattle.path_locks.specs.LockStates.{lock_at, shown_locks};
ghost use Rattle.prop_requests.specs.Sights.{sees};
ghost use Rattle.prop_requests.specs.Levels.{level_in};

use authz_check::Policy;
use dsv_base::{Path, Rev};
use log_access::{Level, level_of};
use path_locks::{Lock, Locks};
use rev_trees::Trees;
use std::marker::Model;

/// Who asks about properties, and what is there to be asked about: the trees, the rules and the locks of
/// a repository, the user, and the path of the repository in targets.
#[derive(Debug, Drop)]
pub struct Sight<'a> {
    trees: &'a Trees,
    policy: &'a Policy,
    locks: &'a Locks,
    user: Option<&'a [u8]>,
    root: &'a [u8],
}

impl<'a> Model for Sight<'a> {
    ghost use Rattle.std.specs.Prelude.{◌≡◌};
    ghost use Rattle.std.specs.Option.{option_copied};
    ghost use Rattle.prop_requests.specs.Sights.{SightState};

    ghost Value = { SightState };

    ghost view = { λ s. record {
      trees = s.trees.now;
      rules = s.policy.now.rules;
      locks = s.locks.now;
      user = option_copied s.user;
      root = s.root.now;
    } };

    ghost invariant = { λ s. s.policy.now.name ≡ s.trees.now.name };
}

impl<'a> Sight<'a> {
    /// What this user sees by a policy that is one for the trees' name.
    pub fn of(
        trees: &'a Trees,
        policy: &'a Policy,
        locks: &'a Locks,
        user: Option<&'a [u8]>,
        root: &'a [u8],
    ) -> Sight<'a>
        requires { policy.now.name ≡ trees.now.name }
        ensures { result ≡ record {
          trees = trees.now;
          rules = policy.now.rules;
          locks = locks.now;
          user = option_copied user.entry;
          root = root.now;
        } }
    {
        Sight {
            trees,
            policy,
            locks,
            user,
            root,
        }
    }

    /// The trees.
    pub(crate) fn trees(&self) -> &Trees
        ensures { result.now ≡ self.now.trees }
    {
        self.trees
    }

    /// The path of the repository in targets.
    pub(crate) fn root(&self) -> &[u8]
        ensures { result.now ≡ self.now.root }
    {
        self.root
    }

    /// Whether the user may read the path.
    pub(crate) fn can_read(&self, path: &Path) -> bool
        ensures { result ≡ sees self.now path.now }
    {
        self.policy.can_read(self.user, path)
    }

    /// The level at which the user is shown the record of a revision.
    pub(crate) fn level_of(&self, rev: Rev) -> Level
        requires { rev < length self.now.trees.revisions }
        ensures { result ≡ level_in self.now rev }
    {
        level_of(self.policy, self.user, self.trees.changed(rev))
    }

    /// The lock on a path that the user may read.
    pub(crate) fn lock_at(&self, path: &Path) -> Option<&Lock>
        requires { sees self.now path.now ≡ true }
        ensures { option_copied result ≡ lock_at path.now (shown_locks (sees self.now) self.now.locks) }
    {
        self.locks.at(path)
    }
}
