ghost use Rattle.std.specs.Prelude.{◌≡◌, ◌++◌, [], IfOk, codes};
ghost use Rattle.prop_values.specs.PropTags.{name_within, same_name, dead_name, tag_of};

use dav_documents::Namespace;
use dsv_base::{Bytes, NoMemory, PropName};
use std::alloc::Global;

/// Whether a name has this local name in this namespace. The local names are compared first, since they
/// differ more often.
pub(crate) fn is_within(name: &PropName, space: Namespace, local: &[u8]) -> bool
    ensures { result ≡ same_name (name_within space local.now) name.now }
{
    if local != name.name.get() {
        return false;
    }
    space.uri() == name.space.get()
}

/// Whether a property that users set has this name in WebDAV.
pub(crate) fn is_dead_name(own: &[u8], name: &PropName) -> bool
    ensures { result ≡ same_name (dead_name own.now) name.now }
{
    match own {
        [b's', b'v', b'n', b':', behind @ ..] => {
            is_within(name, Namespace::SubversionSvn, behind)
        }
        _ => is_within(name, Namespace::SubversionCustom, own),
    }
}

/// The name of the element of a property that users set, behind one of the prefixes that are bound at the
/// root. Its one error is want of memory.
#[tactic(auto, unfolding(crate::specs::PropTags::tag_of, dav_documents::specs::Namespaces::uri_of))]
pub(crate) fn dead_tag(alloc: Global, own: &[u8]) -> Result<Bytes, NoMemory>
    ensures { IfOk result (λ name. tag_of (dead_name own.now) ≡ record { name = name; attributes = [] }) }
{
    match own {
        [b's', b'v', b'n', b':', behind @ ..] => prefixed(alloc, b"S", behind),
        _ => prefixed(alloc, b"C", own),
    }
}

/// A local name behind a prefix. Its one error is want of memory.
pub(crate) fn prefixed(alloc: Global, prefix: &[u8], local: &[u8]) -> Result<Bytes, NoMemory>
    ensures { IfOk result (λ name. name ≡ prefix.now ++ codes ":" ++ local.now) }
{
    let mut name = Vec::from_slice(alloc, prefix)?;
    name.push(b':')?;
    name.extend_from_slice(local)?;
    Ok(Bytes::from_vec(name))
}
