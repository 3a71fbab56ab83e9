ghost use Rattle.std.specs.Prelude.{◌≡◌};
ghost use Rattle.dav_elements.specs.Takes.{Takes};
ghost use Rattle.dav_elements.specs.Opening.{attr_from, attrs_from};

use crate::binding::is_binding;
use crate::bounds::Bounds;
use crate::elem::Attr;
use crate::names::{attribute_name, name_parts};
use crate::tag::Raw;
use crate::unread::Unread;
use dsv_base::List;
use std::alloc::Global;

fn attr_from(alloc: Global, spaces: &Bounds, raw: &Raw) -> Result<Attr, Unread>
    ensures { Takes result (attr_from spaces.now raw.now) }
{
    let parts = name_parts(alloc, &raw.key)?;
    let name = attribute_name(alloc, spaces, parts)?;
    let value = raw.value.copy()?;
    Ok(Attr { name, value })
}

/// The attributes that aren't bindings, by the bindings that hold in their tag.
#[tactic(auto, unfolding(crate::specs::Opening::attrs_from))]
pub fn attrs_from(alloc: Global, spaces: &Bounds, raws: &[Raw]) -> Result<List<Attr>, Unread>
    ensures { Takes result (attrs_from spaces.now raws.now) }
{
    let mut attrs = Vec::new(alloc);
    'raws: for raw in raws {
        if !is_binding(raw) {
            let attr = attr_from(alloc, spaces, raw)?;
            attrs.push(attr)?;
        }
    }
    Ok(List::of(attrs))
}
