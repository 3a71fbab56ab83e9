ghost use Rattle.std.specs.Prelude.{◌≡◌, IfOk};
ghost use Rattle.std.specs.Option.{option_copied};
ghost use Rattle.dav_elements.specs.Names.{first_space};
ghost use Rattle.dav_elements.specs.Layers.{FindsSpaces};

use crate::bound::Bound;
use dsv_base::{Bytes, NoMemory};
use std::alloc::Global;
use std::collections::BTreeMap;
use std::marker::Model;

/// The bindings of one tag, to be looked up by prefix. Contracts see them as their list.
#[derive(Debug, Drop)]
pub struct Layer {
    bounds: Vec<Bound>,
    spaces: BTreeMap<Vec<u8>, Bytes>,
}

impl Model for Layer {
    ghost use Rattle.std.specs.Prelude.{List};
    ghost use Rattle.dav_elements.specs.declared.bound.Bound.{Bound};
    ghost use Rattle.dav_elements.specs.Layers.{FindsSpaces};

    ghost Value = { List Bound };

    ghost view = { λ l. l.bounds.items };

    ghost invariant = { λ l. FindsSpaces l.spaces (λ k. k.items) l.bounds.items };
}

impl Layer {
    /// These bindings. Its one error is want of memory.
    pub fn of(alloc: Global, bounds: Vec<Bound>) -> Result<Layer, NoMemory>
        ensures { IfOk result (λ layer. layer ≡ bounds.items) }
    {
        let spaces = spaces_of(alloc, bounds.as_slice())?;
        Ok(Layer { bounds, spaces })
    }

    /// What the first binding of the prefix binds it to.
    pub fn find(&self, prefix: &[u8]) -> Option<&Bytes>
        ensures { option_copied result ≡ first_space self.now prefix.now }
    {
        self.spaces.get(prefix)
    }
}

/// Per prefix what its first binding binds it to.
fn spaces_of(alloc: Global, bounds: &[Bound]) -> Result<BTreeMap<Vec<u8>, Bytes>, NoMemory>
    ensures { IfOk result (λ spaces. FindsSpaces spaces (λ k. k.items) bounds.now) }
{
    let mut spaces = BTreeMap::new(alloc);
    let mut left = bounds.len();
    'bounds: while left > 0 {
        left -= 1;
        let bound = &bounds[left];
        let prefix = Vec::from_slice(alloc, bound.prefix.get())?;
        let space = bound.space.copy()?;
        spaces.insert(prefix, space)?;
    }
    Ok(spaces)
}
