ghost use Rattle.std.specs.Prelude.{◌≡◌, ◌<◌, ◌++◌, ℕ, IfOk, IsTrue, List, Some, length};
ghost use Rattle.std.specs.FinMap.{is_sorted};
ghost use Rattle.std.specs.Ordering.{nat_cmp};
ghost use Rattle.std.specs.Cmp.Lexicographic.{slice_cmp};
ghost use Rattle.rev_nodes.specs.declared.cell.Cell.{Cell as CellRecord};
ghost use Rattle.node_table.specs.Tables.{IsSoundTable, entries_rise, height_over};
ghost use Rattle.tree_settling.specs.Merged.{AreMerged};
ghost use Rattle.tree_settling.specs.Settled.{entries_under};

use crate::made::Made;
use crate::merging::merged;
use dsv_base::NoMemory;
use node_table::cell_of;
use rev_nodes::{Cell, Entry, Height, Shared};
use std::alloc::Global;
use tree_edits::Held;

/// What stands in a place: its entries, and the height that goes with them.
#[derive(Drop)]
pub(crate) struct Inside {
    pub(crate) entries: Shared<Entry>,
    pub(crate) height: Height,
}

/// What stands in a place with what was made of some names in it. Where nothing was, it is held
/// together with the table's, and none of it is looked at.
pub(crate) fn settled_inside(
    alloc: Global,
    cells: &[Cell],
    more: &[Cell],
    names: &[Made],
    held: &Held,
) -> Result<Inside, NoMemory>
    requires sound { IsSoundTable cells.now }
    requires within { (id : ℕ) → held.now.under ≡ Some id → id < length cells.now }
    requires names { IsTrue (is_sorted (slice_cmp nat_cmp) names.now) }
    ensures merged { IfOk result (λ inside. AreMerged names.now (entries_under cells.now held.now) inside.entries) }
    ensures height { IfOk result (λ inside. inside.height ≡ height_over (cells.now ++ more.now) inside.entries) }
{
    let kept = kept_inside(cells, held)?;
    if names.is_empty() {
        return Ok(kept);
    }
    merged(alloc, cells, more, &kept, names)
}

/// What the table has in a place, held together with it. Its height stays right behind more cells.
fn kept_inside(cells: &[Cell], held: &Held) -> Result<Inside, NoMemory>
    requires sound { IsSoundTable cells.now }
    requires within { (id : ℕ) → held.now.under ≡ Some id → id < length cells.now }
    ensures entries { IfOk result (λ inside. inside.entries ≡ entries_under cells.now held.now) }
    ensures rise { IfOk result (λ inside. IsTrue (entries_rise inside.entries)) }
    ensures height { IfOk result (λ inside.
        (more : List CellRecord) → inside.height ≡ height_over (cells.now ++ more) inside.entries) }
{
    match held.under {
        None => Ok(Inside {
            entries: Shared::none(),
            height: Height { names: 0, bytes: 0 },
        }),
        Some(id) => {
            let cell = cell_of(cells, id);
            let entries = cell.entries.share()?;
            Ok(Inside {
                entries,
                height: cell.height,
            })
        }
    }
}
