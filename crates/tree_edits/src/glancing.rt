ghost use Rattle.std.specs.Prelude.{◌≡◌, true, max, Some, IfSome, IsTrue, is_some};
ghost use Rattle.std.specs.Option.{option_map, option_and_then};
ghost use Rattle.dsv_base.specs.Paths.{components, is_path};
ghost use Rattle.node_table.specs.Ways.{are_names, names_in};
ghost use Rattle.node_table.specs.Tables.{child_in, IsSoundTable};
ghost use Rattle.tree_edits.specs.Edits.{touched_at, or_touched, child_of, held_from, held};
ghost use Rattle.tree_edits.specs.Edits.{Held as HeldRecord};
ghost use Rattle.tree_edits.specs.Rests.{IsRest};
ghost use Rattle.tree_edits.specs.Reading.{glance_of, sight_of, sight_in, IsUnder, CanRead, CanReadEdits};

use crate::edits::Edits;
use crate::glance::Glance;
use crate::names::next_name;
use crate::sight::Sight;
use crate::store::Store;
use dsv_base::{Path, Rev};
use node_table::{cell_of, child_at};
use rev_nodes::{Cell, Kind};

/// The younger of two revisions.
fn younger(above: Rev, own: Rev) -> Rev
    ensures { result ≡ max above own }
{
    if above.get() <= own.get() { own } else { above }
}

/// What the table has at a name below a place.
fn table_sight(cells: &[Cell], above: &Sight, name: &[u8]) -> Option<Sight>
    requires sound { IsSoundTable cells.now }
    requires under { IsUnder cells.now above.now.under }
    ensures { result ≡ option_map (sight_in cells.now above.now.glance.since)
        (option_and_then (child_in cells.now name.now) above.now.under) }
{
    let id = match above.under {
        None => return None,
        Some(id) => id,
    };
    match child_at(cells, id, name) {
        None => None,
        Some(child) => {
            let cell = cell_of(cells, child);
            let since = younger(above.glance.since, cell.line.since);
            Some(Sight::of(&cell.node, since, Some(child)))
        }
    }
}

impl Store {
    /// What stands at a path one name below a place.
    fn sight(&self, cells: &[Cell], next: &[u8], above: &Sight, name: &[u8]) -> Option<Sight>
        requires can { CanRead cells.now self.now }
        requires under { IsUnder cells.now above.now.under }
        ensures sight { (here : HeldRecord) → sight_of here ≡ above.now → result ≡ option_map sight_of
            (or_touched (touched_at self.now next.now) (child_of cells.now name.now here)) }
        ensures under { IfSome result (λ sight. IsUnder cells.now sight.under) }
    {
        match self.get(next) {
            None => table_sight(cells, above, name),
            Some(None) => None,
            Some(Some(held)) => Some(Sight::of(&held.node, held.line.since, held.under)),
        }
    }

    /// What stands where the rest of a path leads from a place.
    pub fn glance_below(
        &self,
        cells: &[Cell],
        text: &[u8],
        path: &[u8],
        above: &Sight,
        rest: &[u8],
    ) -> Option<Glance>
        requires can { CanRead cells.now self.now }
        requires under { IsUnder cells.now above.now.under }
        requires rest { IsRest text.now path.now rest.now }
        requires names { are_names (components rest.now) ≡ true }
        ensures { (here : HeldRecord) → sight_of here ≡ above.now → result ≡ option_map glance_of
            (held_from cells.now self.now path.now (Some here) (components rest.now)) }
    {
        match next_name(text, path, rest) {
            None => match self.sight(cells, text, above, rest) {
                None => None,
                Some(sight) => Some(sight.glance),
            },
            Some((name, next, after)) => match self.sight(cells, next, above, name) {
                None => None,
                Some(sight) => self.glance_below(cells, text, next, &sight, after),
            },
        }
    }
}

impl Edits {
    /// What stands at a path, if anything does, as far as no memory is needed to read it.
    pub fn glance(&self, cells: &[Cell], path: &Path) -> Option<Glance>
        requires { CanReadEdits cells.now self.now }
        ensures glance { result ≡ option_map glance_of (held cells.now self.now (names_in path.now)) }
        ensures path { IsTrue (is_path path.now) }
    {
        self.glance_at(cells, path.text())
    }

    /// Whether something stands at a path.
    pub fn stands(&self, cells: &[Cell], path: &Path) -> bool
        requires { CanReadEdits cells.now self.now }
        ensures there { result ≡ is_some (held cells.now self.now (names_in path.now)) }
        ensures path { IsTrue (is_path path.now) }
    {
        match self.glance(cells, path) {
            None => false,
            Some(_glance) => true,
        }
    }

    /// The kind of what stands at a path, if anything does.
    pub fn kind_at(&self, cells: &[Cell], path: &Path) -> Option<Kind>
        requires { CanReadEdits cells.now self.now }
        ensures { result ≡ option_map (λ here. here.node.kind) (held cells.now self.now (names_in path.now)) }
    {
        match self.glance(cells, path) {
            None => None,
            Some(glance) => Some(glance.kind),
        }
    }
}
