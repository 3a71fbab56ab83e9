ghost use Rattle.std.specs.Prelude.{◌≡◌, IfOk};
ghost use Rattle.std.specs.List.{list_any};
ghost use Rattle.dsv_base.specs.Gives.{Gives};
ghost use Rattle.dsv_base.specs.Paths.{components};
ghost use Rattle.dav_names.specs.Targets.{is_mark, resource_behind, resource_at, target};
ghost use Rattle.dav_names.specs.Reading.{target_no_memory, read_target};

use crate::absolute::{after_root, target_path, without_slash};
use crate::escaped::unescaped;
use crate::parts::{first_part, path_from_parts};
use crate::resource::Resource;
use crate::special::special_at;
use crate::target_fault::TargetFault;
use dsv_base::{NoMemory, Path};
use std::alloc::Global;

/// The resource that a request target names in the repository with this root, as `/svn/NAME`.
/// [`TargetFault::BadTarget`] comes exactly where it names none.
pub fn read_target(alloc: Global, root: &[u8], target: &[u8]) -> Result<Resource, TargetFault>
    ensures { Gives target_no_memory result (read_target root.now target.now) }
{
    match resource_of(alloc, root, target)? {
        None => Err(TargetFault::BadTarget),
        Some(resource) => Ok(resource),
    }
}

#[tactic(auto, unfolding(crate::specs::Targets::target))]
fn resource_of(alloc: Global, root: &[u8], bytes: &[u8]) -> Result<Option<Resource>, NoMemory>
    ensures { IfOk result (λ resource. resource ≡ target root.now bytes.now) }
{
    if has_mark(bytes) {
        return Ok(None);
    }
    let Some(path) = target_path(bytes) else {
        return Ok(None);
    };
    let Some(rest) = after_root(root, path) else {
        return Ok(None);
    };
    let Some(text) = unescaped(alloc, without_slash(rest))? else {
        return Ok(None);
    };
    resource_behind(alloc, text.as_slice())
}

/// Whether arguments or a fragment begin in it.
fn has_mark(target: &[u8]) -> bool
    ensures { result ≡ list_any is_mark target.now }
{
    target.iter().any(|b| *b == b'?' || *b == b'#')
}

/// What the text behind the root names, where it names anything.
#[tactic(auto, unfolding(crate::specs::Targets::resource_behind))]
fn resource_behind(alloc: Global, text: &[u8]) -> Result<Option<Resource>, NoMemory>
    ensures { IfOk result (λ resource. resource ≡ resource_behind text.now) }
{
    match text {
        [] => Ok(Some(Resource::Public(Path::root(alloc)?))),
        [b'/', below @ ..] => named_below(alloc, below),
        _ => Ok(None),
    }
}

/// What the components of the text name.
fn named_below(alloc: Global, below: &[u8]) -> Result<Option<Resource>, NoMemory>
    ensures { IfOk result (λ resource. resource ≡ resource_at (components below.now)) }
{
    let (first, rest) = first_part(below);
    if first == b"!svn".as_slice() {
        return special_at(alloc, rest);
    }
    match path_from_parts(alloc, Some(below))? {
        None => Ok(None),
        Some(path) => Ok(Some(Resource::Public(path))),
    }
}
