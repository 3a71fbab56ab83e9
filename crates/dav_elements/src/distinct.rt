ghost use Rattle.std.specs.Prelude.{◌≡◌, IfOk};
ghost use Rattle.dav_elements.specs.Names.{are_distinct};
ghost use Rattle.dav_elements.specs.Opening.{same_key, same_attr};

use crate::elem::Attr;
use crate::tag::Raw;
use dsv_base::NoMemory;
use std::alloc::Global;
use std::collections::BTreeSet;

/// Whether no two attributes have the same name as it is written. Its one error is want of memory.
#[tactic(auto, unfolding(crate::specs::Names::are_distinct))]
pub fn are_keys_distinct(alloc: Global, raws: &[Raw]) -> Result<bool, NoMemory>
    ensures { IfOk result (λ distinct. distinct ≡ are_distinct same_key raws.now) }
{
    let mut seen: BTreeSet<&[u8]> = BTreeSet::new(alloc);
    let mut left = raws.len();
    'raws: while left > 0 {
        left -= 1;
        let raw = &raws[left];
        if !seen.insert(raw.key.get())? {
            return Ok(false);
        }
    }
    Ok(true)
}

/// Whether no two attributes have the same name with its namespace. Its one error is want of memory.
#[tactic(auto, unfolding(crate::specs::Names::are_distinct))]
pub fn are_names_distinct(alloc: Global, attrs: &[Attr]) -> Result<bool, NoMemory>
    ensures { IfOk result (λ distinct. distinct ≡ are_distinct same_attr attrs.now) }
{
    let mut seen: BTreeSet<(&[u8], &[u8])> = BTreeSet::new(alloc);
    let mut left = attrs.len();
    'attrs: while left > 0 {
        left -= 1;
        let attr = &attrs[left];
        if !seen.insert((attr.name.space.get(), attr.name.name.get()))? {
            return Ok(false);
        }
    }
    Ok(true)
}
