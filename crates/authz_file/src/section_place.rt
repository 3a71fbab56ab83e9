ghost use Rattle.std.specs.Prelude.{◌≡◌, IfOk};

use crate::rule::copy_repos;
use dsv_base::{Bytes, NoMemory, Path};

/// What a path section is about: a path of one repository, or of each.
#[derive(Debug, Drop)]
pub(crate) struct SectionPlace {
    pub(crate) repos: Option<Bytes>,
    pub(crate) path: Path,
}

impl SectionPlace {
    /// A copy. Its one error is want of memory.
    pub(crate) fn copy(&self) -> Result<SectionPlace, NoMemory>
        ensures { IfOk result (λ copy. copy ≡ self.now) }
    {
        let repos = copy_repos(&self.repos)?;
        let path = self.path.copy()?;
        Ok(SectionPlace { repos, path })
    }
}
