ghost use Rattle.std.specs.Prelude.{◌≡◌, IfOk};
ghost use Rattle.dav_elements.specs.Takes.{Takes};
ghost use Rattle.dav_elements.specs.Opening.{outermost, opened_by, opened_with};

use crate::attrs::attrs_from;
use crate::binding::{are_fair, bound_in_tag, xml_space};
use crate::bound::Bound;
use crate::bounds::Bounds;
use crate::distinct::{are_keys_distinct, are_names_distinct};
use crate::frame::{Opened, Scope};
use crate::names::{element_name, name_parts};
use crate::tag::Tag;
use crate::unread::Unread;
use dsv_base::{Bytes, NoMemory};
use std::alloc::Global;

/// What holds around a document's element.
pub fn outermost(alloc: Global, nest: u32) -> Result<Scope, NoMemory>
    ensures { IfOk result (λ scope. scope ≡ outermost nest) }
{
    let prefix = Bytes::of(alloc, b"xml")?;
    let space = Bytes::of(alloc, xml_space())?;
    let mut own = Vec::new(alloc);
    own.push(Bound { prefix, space })?;
    let none = Bounds::none(alloc)?;
    let spaces = none.with(alloc, own)?;
    Ok(Scope { left: nest, spaces })
}

/// The element that the tag opens.
#[tactic(auto, unfolding(crate::specs::Opening::opened_by))]
pub fn opened_by(alloc: Global, scope: &Scope, tag: &Tag) -> Result<Opened, Unread>
    ensures { Takes result (opened_by scope.now tag.now) }
{
    if scope.left < 1 {
        return Err(Unread::Bad);
    }
    if !are_keys_distinct(alloc, tag.attrs.get())? {
        return Err(Unread::Bad);
    }
    if !are_fair(tag.attrs.get()) {
        return Err(Unread::Bad);
    }
    let spaces = bound_in_tag(alloc, tag.attrs.get(), &scope.spaces)?;
    opened_with(alloc, scope.left - 1, tag, spaces)
}

fn opened_with(alloc: Global, left: u32, tag: &Tag, spaces: Bounds) -> Result<Opened, Unread>
    ensures { Takes result (opened_with left tag.now spaces) }
{
    let parts = name_parts(alloc, &tag.name)?;
    let name = element_name(alloc, &spaces, parts)?;
    let attrs = attrs_from(alloc, &spaces, tag.attrs.get())?;
    if !are_names_distinct(alloc, attrs.get())? {
        return Err(Unread::Bad);
    }
    Ok(Opened {
        scope: Scope { left, spaces },
        name,
        attrs,
    })
}
