ghost use Rattle.std.specs.Prelude.{◌≡◌, ◌∷◌, IfOk};
ghost use Rattle.std.specs.Option.{option_copied};
ghost use Rattle.dsv_base.specs.Paths.{components};
ghost use Rattle.dav_names.specs.Targets.{path_from_parts};
ghost use Rattle.dav_names.specs.Reading.{parts_left};

use dsv_base::{NoMemory, Path, PathFault, cut_at};
use std::alloc::Global;

/// The first component, and what stands behind the `/` after it, if there is one.
pub fn first_part(text: &[u8]) -> (&[u8], Option<&[u8]>)
    ensures { components text.now ≡ result.0.now ∷ parts_left (option_copied result.1) }
{
    match cut_at(text, b'/') {
        None => (text, None),
        Some((part, rest)) => (part, Some(rest)),
    }
}

/// The path that the components of `rest` make, where they do. Its one error is want of memory.
#[tactic(auto, unfolding(crate::specs::Targets::path_from_parts))]
pub fn path_from_parts(alloc: Global, rest: Option<&[u8]>) -> Result<Option<Path>, NoMemory>
    ensures { IfOk result (λ path. path ≡ path_from_parts (parts_left (option_copied rest.entry))) }
{
    match rest {
        None => Ok(Some(Path::root(alloc)?)),
        Some(text) => path_below(alloc, text),
    }
}

/// The path that the components of `text` make below `/`, where they do.
#[tactic(auto, unfolding(crate::specs::Targets::path_from_parts))]
fn path_below(alloc: Global, text: &[u8]) -> Result<Option<Path>, NoMemory>
    ensures { IfOk result (λ path. path ≡ path_from_parts (components text.now)) }
{
    if text.is_empty() {
        return Ok(None);
    }
    let root = Path::root(alloc)?;
    match root.join(text) {
        Ok(path) => Ok(Some(path)),
        Err(PathFault::BadPath) => Ok(None),
        Err(PathFault::NoMemory) => Err(NoMemory),
    }
}
