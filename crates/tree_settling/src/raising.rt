ghost use Rattle.std.specs.Prelude.{◌≡◌, ◌++◌, ℕ, true, max, IfSome, List, Some, option_to_list};
ghost use Rattle.std.specs.Option.{option_copied};
ghost use Rattle.rev_nodes.specs.declared.entry.Entry.{Entry as EntryRecord};
ghost use Rattle.rev_nodes.specs.declared.height.Height.{Height as HeightRecord};
ghost use Rattle.node_table.specs.Heights.{higher};
ghost use Rattle.node_table.specs.Tables.{height_over};
ghost use Rattle.tree_settling.specs.Merged.{entry_made, TellsHeight};

use crate::heights::{height_among, height_at};
use crate::made::Made;
use node_table::height_with;
use rev_nodes::{Cell, Entry, Height, NodeId};

/// The height of entries once what was made of a name stands in the place of its old entry, if it
/// had one. It isn't told where the old one may have made the height that was.
pub(crate) fn height_by(
    cells: &[Cell],
    more: &[Cell],
    height: Option<Height>,
    here: Option<&Entry>,
    change: &Made,
) -> Option<Height>
    ensures { (front back : List EntryRecord) →
        TellsHeight (cells.now ++ more.now) (front ++ (option_to_list (option_copied here.entry) ++ back)) height →
        TellsHeight (cells.now ++ more.now) (front ++ (entry_made change.now.0 change.now.1 ++ back)) result }
{
    match height {
        None => None,
        Some(height) => {
            let gone = height_gone(cells, more, here);
            let come = height_come(cells, more, change);
            replaced(height, gone, come)
        }
    }
}

/// The height of entries as it is told, or else by a look at each.
pub(crate) fn told_height(
    cells: &[Cell],
    more: &[Cell],
    height: Option<Height>,
    entries: &[Entry],
) -> Height
    requires { TellsHeight (cells.now ++ more.now) entries.now height }
    ensures { result ≡ height_over (cells.now ++ more.now) entries.now }
{
    match height {
        Some(height) => height,
        None => height_among(cells, more, entries),
    }
}

/// The height by the old entry of a name, if it had one.
fn height_gone(cells: &[Cell], more: &[Cell], here: Option<&Entry>) -> Height
    ensures { result ≡ height_over (cells.now ++ more.now) (option_to_list (option_copied here.entry)) }
{
    match here {
        None => Height { names: 0, bytes: 0 },
        Some(entry) => height_through(cells, more, entry.name.get(), entry.id),
    }
}

/// The height by what was made of a name.
fn height_come(cells: &[Cell], more: &[Cell], change: &Made) -> Height
    ensures { result ≡ height_over (cells.now ++ more.now) (entry_made change.now.0 change.now.1) }
{
    match change.id() {
        None => Height { names: 0, bytes: 0 },
        Some(id) => height_through(cells, more, change.at(), id),
    }
}

/// The height by one entry alone.
fn height_through(cells: &[Cell], more: &[Cell], name: &[u8], id: NodeId) -> Height
    ensures { result ≡ height_over (cells.now ++ more.now) (entry_made name.now (Some id)) }
{
    let below = height_at(cells, more, id);
    height_with(Height { names: 0, bytes: 0 }, name, below)
}

/// A height of which one part goes and another comes, where that is told whatever the others are.
fn replaced(height: Height, gone: Height, come: Height) -> Option<Height>
    ensures { (others : HeightRecord) → height ≡ higher gone others → IfSome result (λ h. h ≡ higher come others) }
{
    if !is_told(height.names as u16, gone.names as u16, come.names as u16) {
        return None;
    }
    if !is_told(height.bytes, gone.bytes, come.bytes) {
        return None;
    }
    Some(Height {
        names: come.names.max(height.names),
        bytes: come.bytes.max(height.bytes),
    })
}

/// Whether the greatest is known once a number goes and another comes.
fn is_told(greatest: u16, gone: u16, come: u16) -> bool
    ensures { result ≡ true → (others : ℕ) → greatest ≡ max gone others → max come greatest ≡ max come others }
{
    gone <= come || gone < greatest
}
