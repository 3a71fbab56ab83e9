ghost use Rattle.std.specs.Prelude.{◌≡◌, ◌++◌, IfOk, OnOk, drop};
ghost use Rattle.std.specs.List.{list_all};
ghost use Rattle.dav_elements.specs.Bindings.{xml_space, xmlns_space, is_prefix_key, is_binding, bindings_of, bound_in_tag, may_bind, may_bind_prefix, is_fair};

use crate::bound::Bound;
use crate::bounds::Bounds;
use crate::names::{begins_part, has_colon};
use crate::tag::Raw;
use dsv_base::{Bytes, NoMemory};
use std::alloc::Global;

/// The namespace of the prefix `xml`.
#[tactic(auto, unfolding(crate::specs::Bindings::xml_space))]
pub fn xml_space() -> &'static [u8]
    ensures { result.now ≡ xml_space }
{
    b"http://www.w3.org/XML/1998/namespace"
}

#[tactic(auto, unfolding(crate::specs::Bindings::xmlns_space))]
fn xmlns_space() -> &'static [u8]
    ensures { result.now ≡ xmlns_space }
{
    b"http://www.w3.org/2000/xmlns/"
}

#[tactic(auto, unfolding(crate::specs::Bindings::is_prefix_key))]
fn is_prefix_key(key: &[u8]) -> bool
    ensures { result ≡ is_prefix_key key.now }
{
    key.starts_with(b"xmlns:")
}

/// Whether the attribute binds the default namespace or a prefix.
#[tactic(auto, unfolding(crate::specs::Bindings::is_binding))]
pub fn is_binding(raw: &Raw) -> bool
    ensures { result ≡ is_binding raw.now }
{
    raw.key.get() == b"xmlns".as_slice() || is_prefix_key(raw.key.get())
}

fn may_bind(prefix: &[u8], space: &[u8]) -> bool
    ensures { result ≡ may_bind prefix.now space.now }
{
    if prefix == b"xml".as_slice() {
        return space == xml_space();
    }
    prefix != b"xmlns".as_slice() && space != xml_space() && space != xmlns_space()
}

fn may_bind_prefix(prefix: &[u8], space: &[u8]) -> bool
    ensures { result ≡ may_bind_prefix prefix.now space.now }
{
    begins_part(prefix) && !has_colon(prefix) && !space.is_empty() && may_bind(prefix, space)
}

fn is_fair(raw: &Raw) -> bool
    ensures { result ≡ is_fair raw.now }
{
    if raw.key.get() == b"xmlns".as_slice() {
        return may_bind(b"", raw.value.get());
    }
    if is_prefix_key(raw.key.get()) {
        return may_bind_prefix(behind_colon(raw.key.get()), raw.value.get());
    }
    true
}

/// Whether each attribute binds nothing, or what it may bind.
pub fn are_fair(raws: &[Raw]) -> bool
    ensures { result ≡ list_all is_fair raws.now }
{
    raws.iter().all(|raw| is_fair(raw))
}

/// What stands behind `xmlns:`.
fn behind_colon(key: &[u8]) -> &[u8]
    ensures { result.now ≡ drop 6 key.now }
{
    if key.len() < 6 {
        return b"";
    }
    &key[6..]
}

/// The bindings of a tag, before those around it; without any, the ones around it once more.
#[tactic(auto, unfolding(crate::specs::Bindings::bound_in_tag))]
pub fn bound_in_tag(alloc: Global, raws: &[Raw], spaces: &Bounds) -> Result<Bounds, NoMemory>
    ensures { IfOk result (λ all. all ≡ bound_in_tag raws.now spaces.now) }
{
    let mut own = Vec::new(alloc);
    'raws: for raw in raws {
        push_binding(alloc, raw, &mut own)?;
    }
    if own.is_empty() {
        return spaces.share();
    }
    spaces.with(alloc, own)
}

fn push_binding(alloc: Global, raw: &Raw, all: &mut Vec<Bound>) -> Result<(), NoMemory>
    ensures { OnOk result (all.new.items ≡ all.old.items ++ bindings_of raw.now) }
{
    if raw.key.get() == b"xmlns".as_slice() {
        let space = raw.value.copy()?;
        all.push(Bound {
            prefix: Bytes::from_vec(Vec::new(alloc)),
            space,
        })?;
        return Ok(());
    }
    if is_prefix_key(raw.key.get()) {
        let prefix = raw.key.after(6)?;
        let space = raw.value.copy()?;
        all.push(Bound { prefix, space })?;
        return Ok(());
    }
    Ok(())
}
