ghost use Rattle.std.specs.Prelude.{◌≡◌, option_to_list};
ghost use Rattle.std.specs.Option.{option_copied};
ghost use Rattle.dav_machine.specs.Chains.{path_in, revision_in, target_aim, aim_of};

use crate::asked::Asked;
use dav_names::Resource;
use dsv_base::{Path, Rev};

/// What a request aims at.
#[derive(Debug, Drop)]
pub struct Aim<'a> {
    /// The path whose rule is asked, if there is one.
    pub path: Option<&'a Path>,
    /// The revision that is named, if one is: its tree is meant, and else the youngest's.
    pub revision: Option<Rev>,
}

/// The aim of what is asked for.
pub fn aim_of<'a>(asked: &Asked, resource: &'a Resource) -> Aim<'a>
    ensures path { option_copied result.path ≡ (aim_of asked.now resource.now).path }
    ensures revisions { option_to_list result.revision ≡ (aim_of asked.now resource.now).revisions }
    ensures meant { result.revision ≡ (aim_of asked.now resource.now).meant }
{
    match asked {
        Asked::Options { .. } => target_aim(resource),
        Asked::Get => target_aim(resource),
        Asked::Head => target_aim(resource),
        Asked::Propfind { .. } => target_aim(resource),
    }
}

/// The aim of what only its target names.
fn target_aim(resource: &Resource) -> Aim<'_>
    ensures path { option_copied result.path ≡ (target_aim resource.now).path }
    ensures revisions { option_to_list result.revision ≡ (target_aim resource.now).revisions }
    ensures meant { result.revision ≡ (target_aim resource.now).meant }
{
    Aim {
        path: path_in(resource),
        revision: revision_in(resource),
    }
}

/// The path that a resource names in the tree of a revision.
fn path_in(resource: &Resource) -> Option<&Path>
    ensures { option_copied result ≡ path_in resource.now }
{
    match resource {
        Resource::Public(path) => Some(path),
        Resource::Me => None,
        Resource::Rvr(_, path) => Some(path),
        Resource::RevOnly(_) => None,
        Resource::Txr(_, _) => None,
        Resource::Txn(_) => None,
    }
}

/// The revision that a resource names.
fn revision_in(resource: &Resource) -> Option<Rev>
    ensures { result ≡ revision_in resource.now }
{
    match resource {
        Resource::Public(_) => None,
        Resource::Me => None,
        Resource::Rvr(rev, _) => Some(*rev),
        Resource::RevOnly(rev) => Some(*rev),
        Resource::Txr(_, _) => None,
        Resource::Txn(_) => None,
    }
}
