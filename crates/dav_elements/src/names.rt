ghost use Rattle.std.specs.Prelude.{◌≡◌};
ghost use Rattle.std.specs.List.{list_any};
ghost use Rattle.dav_documents.specs.Plain.{begins_name};
ghost use Rattle.dav_elements.specs.Takes.{Takes};
ghost use Rattle.dav_elements.specs.Names.{is_white, is_colon, begins_part, prefixed_parts, name_parts, or_no_space, space_bound, element_name, attribute_name};

use crate::bounds::Bounds;
use crate::name_parts::NameParts;
use crate::unread::Unread;
use dsv_base::{Bytes, PropName, cut_bytes};
use std::alloc::Global;

/// Whether it is white space of XML.
pub fn is_white(b: u8) -> bool
    ensures { result ≡ is_white b }
{
    b == b' ' || b == b'\t' || b == b'\n' || b == b'\r'
}

/// Whether a name may begin with this byte.
pub fn begins_name(b: u8) -> bool
    ensures { result ≡ begins_name b }
{
    b.is_ascii_alphabetic() || b == b'_' || b >= 128
}

#[tactic(auto, unfolding(crate::specs::Names::begins_part))]
pub fn begins_part(name: &[u8]) -> bool
    ensures { result ≡ begins_part name.now }
{
    match name {
        [] => false,
        [b, ..] => begins_name(*b),
    }
}

pub fn has_colon(name: &[u8]) -> bool
    ensures { result ≡ list_any is_colon name.now }
{
    name.iter().any(|b| *b == b':')
}

/// The name in its parts.
#[tactic(auto, unfolding(crate::specs::Names::name_parts))]
pub fn name_parts(alloc: Global, name: &Bytes) -> Result<NameParts, Unread>
    ensures { Takes result (name_parts name.now) }
{
    let cut = cut_bytes(name, b':')?;
    match cut {
        None => {
            if !begins_part(name.get()) {
                return Err(Unread::Bad);
            }
            let local = name.copy()?;
            Ok(NameParts {
                prefix: Bytes::from_vec(Vec::new(alloc)),
                local,
            })
        }
        Some((prefix, local)) => prefixed_parts(prefix, local),
    }
}

fn prefixed_parts(prefix: Bytes, local: Bytes) -> Result<NameParts, Unread>
    ensures { Takes result (prefixed_parts prefix local) }
{
    if !begins_part(prefix.get()) {
        return Err(Unread::Bad);
    }
    if !begins_part(local.get()) {
        return Err(Unread::Bad);
    }
    if has_colon(local.get()) {
        return Err(Unread::Bad);
    }
    Ok(NameParts { prefix, local })
}

#[tactic(auto, unfolding(crate::specs::Names::space_bound))]
fn space_bound(alloc: Global, spaces: &Bounds, prefix: &[u8]) -> Result<Bytes, Unread>
    ensures { Takes result (space_bound spaces.now prefix.now) }
{
    let found = spaces.find(prefix)?;
    or_no_space(alloc, prefix, found)
}

fn or_no_space(alloc: Global, prefix: &[u8], found: Option<Bytes>) -> Result<Bytes, Unread>
    ensures { Takes result (or_no_space prefix.now found) }
{
    match found {
        Some(space) => Ok(space),
        None => {
            if !prefix.is_empty() {
                return Err(Unread::Bad);
            }
            Ok(Bytes::from_vec(Vec::new(alloc)))
        }
    }
}

/// The element's name with its namespace.
#[tactic(auto, unfolding(crate::specs::Names::element_name))]
pub fn element_name(alloc: Global, spaces: &Bounds, parts: NameParts) -> Result<PropName, Unread>
    ensures { Takes result (element_name spaces.now parts) }
{
    let NameParts { prefix, local } = parts;
    let space = space_bound(alloc, spaces, prefix.get())?;
    Ok(PropName { space, name: local })
}

/// The attribute's name with its namespace.
#[tactic(auto, unfolding(crate::specs::Names::attribute_name))]
pub fn attribute_name(alloc: Global, spaces: &Bounds, parts: NameParts) -> Result<PropName, Unread>
    ensures { Takes result (attribute_name spaces.now parts) }
{
    if parts.prefix.get().is_empty() {
        let NameParts { prefix: _, local } = parts;
        return Ok(PropName {
            space: Bytes::from_vec(Vec::new(alloc)),
            name: local,
        });
    }
    element_name(alloc, spaces, parts)
}
