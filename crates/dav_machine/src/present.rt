ghost use Rattle.std.specs.Prelude.{◌≡◌, IfOk};
ghost use Rattle.std.specs.Option.{option_copied};
ghost use Rattle.authz_check.specs.Access.{can_read};
ghost use Rattle.dav_names.specs.Targets.{root_of};
ghost use Rattle.dav_machine.specs.Presents.{present_of, sight_to};

use authz_check::Policy;
use dav_names::root_of;
use dsv_base::{Bytes, NoMemory, Path};
use path_locks::Locks;
use prop_requests::Sight;
use rev_trees::Trees;
use std::alloc::Global;
use std::marker::Model;

/// The present state, from which requests are answered. Contracts see it as the trees, the rules and the
/// locks: the rights are those in the repository of these trees.
#[derive(Debug, Drop)]
pub struct Present {
    trees: Trees,
    policy: Policy,
    locks: Locks,
    /// The path of the repository in targets: `/svn/NAME`.
    root: Bytes,
}

impl Model for Present {
    ghost use Rattle.dav_machine.specs.Presents.{PresentState, IsPresent};

    ghost Value = { PresentState };

    ghost view = { λ p. record { trees = p.trees; rules = p.policy.rules; locks = p.locks } };

    ghost invariant = { λ p. IsPresent p.trees p.policy p.root };
}

impl Present {
    /// The state of these trees without locks, with a policy that is one for their name. Its one error is
    /// want of memory.
    pub fn of(alloc: Global, trees: Trees, policy: Policy) -> Result<Present, NoMemory>
        requires { policy.name ≡ trees.name }
        ensures { IfOk result (λ present. present ≡ present_of trees policy) }
    {
        let root = root_of(alloc, trees.name())?;
        Ok(Present {
            trees,
            policy,
            locks: Locks::new(alloc),
            root,
        })
    }

    /// The path of the repository in targets.
    pub fn root(&self) -> &[u8]
        ensures { result.now ≡ root_of self.now.trees.name }
    {
        self.root.get()
    }

    pub fn trees(&self) -> &Trees
        ensures { result.now ≡ self.now.trees }
    {
        &self.trees
    }

    /// What a user sees, who asks about properties.
    pub fn sight<'a>(&'a self, user: Option<&'a [u8]>) -> Sight<'a>
        ensures { result ≡ sight_to self.now (option_copied user.entry) }
    {
        Sight::of(
            &self.trees,
            &self.policy,
            &self.locks,
            user,
            self.root.get(),
        )
    }

    /// Whether the user may read the path.
    pub fn can_read(&self, user: Option<&[u8]>, path: &Path) -> bool
        ensures { result ≡ can_read self.now.rules self.now.trees.name (option_copied user.entry) path.now }
    {
        self.policy.can_read(user, path)
    }

    /// Gives the trees back.
    pub fn into_trees(self) -> Trees
        ensures { result ≡ self.trees }
    {
        let Present {
            trees,
            policy: _,
            locks: _,
            root: _,
        } = self;
        trees
    }
}
