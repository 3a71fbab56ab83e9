ghost use Rattle.std.specs.Prelude.{◌≡◌, ◌<◌, ℕ, true, Some, IfOk, length};
ghost use Rattle.dsv_base.specs.Paths.{components};
ghost use Rattle.node_table.specs.Ways.{are_names};
ghost use Rattle.node_table.specs.Tables.{IsSoundTable};
ghost use Rattle.tree_edits.specs.Edits.{touched_at, or_touched, held_from};
ghost use Rattle.tree_edits.specs.Rests.{IsRest};
ghost use Rattle.tree_edits.specs.Reading.{table_child, IsUnder, HasUnder, CanRead};
ghost use Rattle.tree_edits.specs.Hanging.{child_held};

use crate::names::next_name;
use crate::place::{Place, below_line};
use crate::store::Store;
use dsv_base::NoMemory;
use node_table::{cell_of, child_at};
use rev_nodes::{Cell, Line, NodeId};

/// What the table has at a name below a place.
pub fn table_child<'a>(
    cells: &'a [Cell],
    line: &Line,
    under: Option<NodeId>,
    name: &[u8],
) -> Result<Option<Place<'a>>, NoMemory>
    requires sound { IsSoundTable cells.now }
    requires under { IsUnder cells.now under }
    ensures place { IfOk result (λ place. place ≡ table_child cells.now line.now under name.now) }
    ensures under { IfOk result (λ place. HasUnder cells.now place) }
{
    let Some(id) = under else {
        return Ok(None);
    };
    match child_at(cells, id, name) {
        None => Ok(None),
        Some(child) => {
            let cell = cell_of(cells, child);
            let line = below_line(line, name, &cell.line)?;
            Ok(Some(Place::of(&cell.node, line, Some(child))))
        }
    }
}

impl Store {
    /// What stands at a path one name below a place.
    fn child<'a>(
        &'a self,
        cells: &'a [Cell],
        next: &[u8],
        above: &Place,
        name: &[u8],
    ) -> Result<Option<Place<'a>>, NoMemory>
        requires can { CanRead cells.now self.now }
        requires under { IsUnder cells.now above.now.under }
        ensures place { IfOk result (λ place. place ≡ or_touched (touched_at self.now next.now)
            (table_child cells.now above.now.line above.now.under name.now)) }
        ensures under { IfOk result (λ place. HasUnder cells.now place) }
    {
        match self.get(next) {
            None => table_child(cells, above.line(), above.under(), name),
            Some(None) => Ok(None),
            Some(Some(held)) => {
                let line = held.line.copy()?;
                Ok(Some(Place::of(&held.node, line, held.under)))
            }
        }
    }

    /// What stands where the rest of a path leads from a place.
    pub fn look_below<'a>(
        &'a self,
        cells: &'a [Cell],
        text: &[u8],
        path: &[u8],
        above: &Place,
        rest: &[u8],
    ) -> Result<Option<Place<'a>>, NoMemory>
        requires can { CanRead cells.now self.now }
        requires under { IsUnder cells.now above.now.under }
        requires rest { IsRest text.now path.now rest.now }
        requires names { are_names (components rest.now) ≡ true }
        ensures { IfOk result (λ place. place ≡ held_from cells.now self.now path.now (Some above.now)
            (components rest.now)) }
    {
        match next_name(text, path, rest) {
            None => self.child(cells, text, above, rest),
            Some((name, next, after)) => match self.child(cells, next, above, name)? {
                None => Ok(None),
                Some(here) => self.look_below(cells, text, next, &here, after),
            },
        }
    }
}
