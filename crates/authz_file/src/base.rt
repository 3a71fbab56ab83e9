ghost use Rattle.std.specs.Prelude.{◌≡◌, IfOk};

use dsv_base::{Bytes, List, NoMemory};
use std::alloc::Global;

/// Whom a rule speaks of, before `~` is looked at.
#[derive(Debug, Drop)]
pub enum Base {
    /// `*`: everyone, logged in or not.
    All,
    /// `$authenticated`: everyone who is logged in.
    LoggedIn,
    /// `$anonymous`: everyone who isn't logged in.
    Anonymous,
    /// The users of these names: of a group all that it holds, in byte order, each once.
    Named(List<Bytes>),
}

impl Base {
    /// A copy. Its one error is want of memory.
    pub(crate) fn copy(&self, alloc: Global) -> Result<Base, NoMemory>
        ensures { IfOk result (λ copy. copy ≡ self.now) }
    {
        match self {
            Base::All => Ok(Base::All),
            Base::LoggedIn => Ok(Base::LoggedIn),
            Base::Anonymous => Ok(Base::Anonymous),
            Base::Named(names) => {
                let names = copy_names(alloc, names.get())?;
                Ok(Base::Named(names))
            }
        }
    }
}

fn copy_names(alloc: Global, names: &[Bytes]) -> Result<List<Bytes>, NoMemory>
    ensures { IfOk result (λ copy. copy ≡ names.now) }
{
    let mut copies = Vec::new(alloc);
    'names: for name in names {
        copies.push(name.copy()?)?;
    }
    Ok(List::of(copies))
}
