ghost use Rattle.std.specs.Prelude.{◌≡◌, ◌+◌, ◌∷◌, ◌++◌, [], IfOk, length, map};
ghost use Rattle.dav_bodies.specs.Elements.{elements_in, is_dav, name_of_elem, size_of, size_of_all};

use dav_elements::{Elem, Part, pushed};
use dsv_base::{List, NoMemory, PropName};
use std::alloc::Global;

/// Whether the element has this name in the namespace of WebDAV.
pub fn is_dav(elem: &Elem, name: &[u8]) -> bool
    ensures { result ≡ is_dav name.now elem.now }
{
    elem.name.space.get() == b"DAV:".as_slice() && elem.name.name.get() == name
}

/// How many elements stand among the parts.
pub fn count_elements(parts: &[Part]) -> usize
    ensures { result ≡ length (elements_in parts.now) }
{
    let mut count = 0usize;
    'parts: for part in parts {
        if let Part::Child(_) = part {
            count += 1;
        }
    }
    count
}

/// The sum. There is no memory for as many elements as no number tells.
pub fn sum(count: u64, more: u64) -> Result<u64, NoMemory>
    ensures { IfOk result (λ all. all ≡ count + more) }
{
    match count.checked_add(more) {
        Some(all) => Ok(all),
        None => Err(NoMemory),
    }
}

/// How many elements the element is, with all that stand in it. It recurses as deep as they stand in each other.
/// Its one error is want of memory.
pub fn size_of(elem: &Elem) -> Result<u64, NoMemory>
    ensures { IfOk result (λ size. size ≡ size_of elem.now) }
{
    let mut size = 1u64;
    let parts = elem.parts.as_slice();
    'parts: for part in parts {
        if let Part::Child(inner) = part {
            size = sum(size, size_of(inner)?)?;
        }
    }
    Ok(size)
}

fn copy_name(name: &PropName) -> Result<PropName, NoMemory>
    ensures { IfOk result (λ copy. copy ≡ name.now) }
{
    let space = name.space.copy()?;
    let name = name.name.copy()?;
    Ok(PropName { space, name })
}

/// The names with one more behind them: that of the part, if it is an element.
fn with_name(names: List<PropName>, part: &Part) -> Result<List<PropName>, NoMemory>
    ensures { IfOk result (λ all. all ≡ names ++ map name_of_elem (elements_in (part.now ∷ []))) }
{
    match part {
        Part::Text(_) => Ok(names),
        Part::Child(elem) => {
            let name = copy_name(&elem.name)?;
            pushed(names, name)
        }
    }
}

/// The names of the elements among the parts, in their order. Its one error is want of memory.
pub fn names_of(alloc: Global, parts: &[Part]) -> Result<List<PropName>, NoMemory>
    ensures { IfOk result (λ names. names ≡ map name_of_elem (elements_in parts.now)) }
{
    let mut names = List::of(Vec::new(alloc));
    'parts: for part in parts {
        names = with_name(names, part)?;
    }
    Ok(names)
}
