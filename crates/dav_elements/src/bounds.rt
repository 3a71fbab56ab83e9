ghost use Rattle.std.specs.Prelude.{◌≡◌, ◌++◌, [], IfOk};
ghost use Rattle.std.specs.List.{flat_map};
ghost use Rattle.std.specs.Arc.{arc_value};
ghost use Rattle.dav_elements.specs.Names.{first_space};

use crate::bound::Bound;
use crate::layer::Layer;
use dsv_base::{Bytes, NoMemory};
use std::alloc::Global;
use std::marker::Model;
use std::sync::Arc;

/// Bindings, the innermost first: those of each tag are held once, and by all elements in it. Contracts
/// see one list.
#[derive(Debug, Drop)]
pub struct Bounds {
    layers: Arc<Vec<Arc<Layer>>>,
}

impl Model for Bounds {
    ghost use Rattle.std.specs.Prelude.{List, vec_items};
    ghost use Rattle.std.specs.List.{flat_map};
    ghost use Rattle.std.specs.Arc.{arc_value};
    ghost use Rattle.dav_elements.specs.declared.bound.Bound.{Bound};

    ghost Value = { List Bound };

    ghost view = { λ b. flat_map (λ layer. arc_value layer) (vec_items (arc_value b.layers)) };
}

impl Bounds {
    /// No bindings. Its one error is want of memory.
    pub fn none(alloc: Global) -> Result<Bounds, NoMemory>
        ensures { IfOk result (λ b. b ≡ []) }
    {
        let layers = Arc::new(alloc, Vec::new(alloc))?;
        Ok(Bounds { layers })
    }

    /// The same bindings, held together with these. Its one error is want of memory.
    pub fn share(&self) -> Result<Bounds, NoMemory>
        ensures { IfOk result (λ b. b ≡ self.now) }
    {
        let layers = Arc::try_clone(&self.layers)?;
        Ok(Bounds { layers })
    }

    /// The bindings of a tag, before these. Its one error is want of memory.
    pub fn with(&self, alloc: Global, own: Vec<Bound>) -> Result<Bounds, NoMemory>
        ensures { IfOk result (λ b. b ≡ own.items ++ self.now) }
    {
        let own = Arc::new(alloc, Layer::of(alloc, own)?)?;
        let layers: &Vec<Arc<Layer>> = &self.layers;
        let layers = layers_with(alloc, own, layers.as_slice())?;
        let layers = Arc::new(alloc, layers)?;
        Ok(Bounds { layers })
    }

    /// What the first binding of the prefix binds it to. Its one error is want of memory.
    pub fn find(&self, prefix: &[u8]) -> Result<Option<Bytes>, NoMemory>
        ensures { IfOk result (λ space. space ≡ first_space self.now prefix.now) }
    {
        let layers: &Vec<Arc<Layer>> = &self.layers;
        find_in(layers.as_slice(), prefix)
    }
}

fn layers_with(
    alloc: Global,
    own: Arc<Layer>,
    others: &[Arc<Layer>],
) -> Result<Vec<Arc<Layer>>, NoMemory>
    ensures { IfOk result (λ all. flat_map (λ layer. arc_value layer) all.items ≡ arc_value own ++ flat_map (λ layer. arc_value layer) others.now) }
{
    let mut all = Vec::new(alloc);
    all.push(own)?;
    'layers: for layer in others {
        let layer = Arc::try_clone(layer)?;
        all.push(layer)?;
    }
    Ok(all)
}

fn found_in(layer: &Arc<Layer>, prefix: &[u8]) -> Result<Option<Bytes>, NoMemory>
    ensures { IfOk result (λ space. space ≡ first_space (arc_value layer.now) prefix.now) }
{
    let layer: &Layer = layer;
    match layer.find(prefix) {
        None => Ok(None),
        Some(space) => Ok(Some(space.copy()?)),
    }
}

fn find_in(layers: &[Arc<Layer>], prefix: &[u8]) -> Result<Option<Bytes>, NoMemory>
    ensures { IfOk result (λ space. space ≡ first_space (flat_map (λ layer. arc_value layer) layers.now) prefix.now) }
{
    'layers: for layer in layers {
        let found = found_in(layer, prefix)?;
        match found {
            Some(space) => return Ok(Some(space)),
            None => {}
        }
    }
    Ok(None)
}
