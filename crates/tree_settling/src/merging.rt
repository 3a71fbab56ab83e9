ghost use Rattle.std.specs.Prelude.{◌≡◌, ◌++◌, IfOk, IfSome, OnOk, IsTrue};
ghost use Rattle.std.specs.FinMap.{is_sorted};
ghost use Rattle.std.specs.Option.{option_copied};
ghost use Rattle.std.specs.Ordering.{nat_cmp};
ghost use Rattle.std.specs.Cmp.Lexicographic.{slice_cmp};
ghost use Rattle.node_table.specs.Tables.{entries_rise, height_over};
ghost use Rattle.tree_settling.specs.Merged.{AreMerged, entry_made};

use crate::cutting::{Cut, cut_at_name};
use crate::inside::Inside;
use crate::made::Made;
use crate::raising::{height_by, told_height};
use dsv_base::NoMemory;
use rev_nodes::{Cell, Entry, Shared};
use std::alloc::Global;

/// What stands in a place with what was made of some names. Both stand in byte order of the names.
/// Each name that stays is held together with the old entry's.
pub(crate) fn merged(
    alloc: Global,
    cells: &[Cell],
    more: &[Cell],
    kept: &Inside,
    changes: &[Made],
) -> Result<Inside, NoMemory>
    requires old { IsTrue (entries_rise kept.now.entries) }
    requires height { kept.now.height ≡ height_over (cells.now ++ more.now) kept.now.entries }
    requires new { IsTrue (is_sorted (slice_cmp nat_cmp) changes.now) }
    ensures merged { IfOk result (λ all. AreMerged changes.now kept.now.entries all.entries) }
    ensures height { IfOk result (λ all. all.height ≡ height_over (cells.now ++ more.now) all.entries) }
{
    let mut rest = kept.entries.get();
    let mut height = Some(kept.height);
    let mut all = Vec::with_capacity(alloc, rest.len().saturating_add(changes.len()))?;
    'changes: for change in changes {
        let cut = cut_at_name(rest, change.at());
        height = height_by(cells, more, height, cut.here, change);
        merge_one(alloc, &mut all, &cut, change)?;
        rest = cut.behind;
    }
    copy_all(&mut all, rest)?;
    let height = told_height(cells, more, height, all.as_slice());
    let entries = Shared::of(all)?;
    Ok(Inside { entries, height })
}

fn copy_entry(entry: &Entry) -> Result<Entry, NoMemory>
    ensures { IfOk result (λ copy. copy ≡ entry.now) }
{
    let name = entry.name.share()?;
    Ok(Entry { name, id: entry.id })
}

fn copy_all(all: &mut Vec<Entry>, entries: &[Entry]) -> Result<(), NoMemory>
    ensures { OnOk result (all.new.items ≡ all.old.items ++ entries.now) }
{
    'entries: for entry in entries {
        all.push(copy_entry(entry)?)?;
    }
    Ok(())
}

/// Adds the entries before a name, and what was made of it.
fn merge_one(alloc: Global, all: &mut Vec<Entry>, cut: &Cut, change: &Made) -> Result<(), NoMemory>
    requires { IfSome (option_copied cut.now.here) (λ e. e.name ≡ change.now.0) }
    ensures { OnOk result (all.new.items ≡
        (all.old.items ++ cut.now.before.now) ++ entry_made change.now.0 change.now.1) }
{
    copy_all(all, cut.before)?;
    push_made(alloc, all, change, cut.here)
}

/// Adds the entry of a name, where something was made of it. `here` is its old entry, if it had one.
fn push_made(
    alloc: Global,
    all: &mut Vec<Entry>,
    change: &Made,
    here: Option<&Entry>,
) -> Result<(), NoMemory>
    requires { IfSome (option_copied here) (λ e. e.name ≡ change.now.0) }
    ensures { OnOk result (all.new.items ≡ all.old.items ++ entry_made change.now.0 change.now.1) }
{
    match change.id() {
        None => Ok(()),
        Some(id) => {
            let name = name_held(alloc, change.at(), here)?;
            all.push(Entry { name, id })?;
            Ok(())
        }
    }
}

/// A name, which is held together with that of an entry that has it, if there is one.
fn name_held(alloc: Global, name: &[u8], here: Option<&Entry>) -> Result<Shared<u8>, NoMemory>
    requires { IfSome (option_copied here) (λ e. e.name ≡ name.now) }
    ensures { IfOk result (λ held. held ≡ name.now) }
{
    match here {
        Some(entry) => entry.name.share(),
        None => Shared::of(Vec::from_slice(alloc, name)?),
    }
}
