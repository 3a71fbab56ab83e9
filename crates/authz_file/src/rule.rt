ghost use Rattle.std.specs.Prelude.{◌≡◌, IfOk};

use crate::base::Base;
use crate::right::Right;
use dsv_base::{Bytes, NoMemory, Path};
use std::alloc::Global;

/// A counting line of a path section: of the lines that repeat a key in one section the last counts,
/// and the others say nothing.
#[derive(Debug, Drop)]
pub struct Rule {
    /// The repository of a section `[REPOS:PATH]`; none in a section `[PATH]`.
    pub repos: Option<Bytes>,
    /// The path of the section, without a slash at its end.
    pub path: Path,
    /// Whether `~` stands before the principal: it then speaks of whoever `base` doesn't.
    pub negated: bool,
    /// The principal, groups and aliases being resolved to user names.
    pub base: Base,
    /// What the value gives.
    pub right: Right,
}

impl Rule {
    /// A copy. Its one error is want of memory.
    pub(crate) fn copy(&self, alloc: Global) -> Result<Rule, NoMemory>
        ensures { IfOk result (λ copy. copy ≡ self.now) }
    {
        let repos = copy_repos(&self.repos)?;
        let path = self.path.copy()?;
        let base = self.base.copy(alloc)?;
        Ok(Rule {
            repos,
            path,
            negated: self.negated,
            base,
            right: self.right,
        })
    }
}

/// A copy of a repository's name, if there is one. Its one error is want of memory.
pub(crate) fn copy_repos(repos: &Option<Bytes>) -> Result<Option<Bytes>, NoMemory>
    ensures { IfOk result (λ copy. copy ≡ repos.now) }
{
    match repos {
        None => Ok(None),
        Some(name) => Ok(Some(name.copy()?)),
    }
}
