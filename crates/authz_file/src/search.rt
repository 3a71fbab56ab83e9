ghost use Rattle.std.specs.Prelude.{◌≡◌, ◌<◌, ℕ, [], length, nat_eq, IfOk, OnOk};
ghost use Rattle.std.specs.List.{list_any};
ghost use Rattle.authz_file.specs.Groups.{reached_by, is_circular, named_at};
ghost use Rattle.authz_file.specs.Searching.{Has, HaveSame, IsGraph, IsSeen, with_place, with_places};

use crate::graph::named_at;
use dsv_base::{List, NoMemory};
use std::alloc::Global;
use std::collections::BTreeSet;

/// Puts a place behind the others, unless it is among them.
fn add(places: &mut Vec<usize>, seen: &mut BTreeSet<usize>, place: usize) -> Result<(), NoMemory>
    requires { IsSeen seen.old places.old.items }
    ensures added { OnOk result (places.new.items ≡ with_place places.old.items place) }
    ensures seen { OnOk result (IsSeen seen.new places.new.items) }
{
    if seen.contains(&place) {
        return Ok(());
    }
    seen.insert(place)?;
    places.push(place)?;
    Ok(())
}

/// Puts places behind the others, each that isn't among them.
fn add_all(
    places: &mut Vec<usize>,
    seen: &mut BTreeSet<usize>,
    named: &[usize],
) -> Result<(), NoMemory>
    requires { IsSeen seen.old places.old.items }
    ensures added { OnOk result (places.new.items ≡ with_places places.old.items named.now) }
    ensures seen { OnOk result (IsSeen seen.new places.new.items) }
{
    'named: for place in named {
        add(places, seen, *place)?;
    }
    Ok(())
}

/// The places that are reached from these, each once. The one error is want of memory.
pub(crate) fn reached_by(
    alloc: Global,
    graph: &[List<usize>],
    start: &[usize],
) -> Result<Vec<usize>, NoMemory>
    requires graph { IsGraph graph.now }
    requires start { (place : ℕ) → Has start.now place → place < length graph.now }
    ensures { IfOk result (λ places. HaveSame places.items (reached_by graph.now start.now)) }
{
    let mut places = Vec::new(alloc);
    let mut seen = BTreeSet::new(alloc);
    add_all(&mut places, &mut seen, start)?;
    let mut done = 0usize;
    'places: while done < places.len() {
        let place = places[done];
        add_all(&mut places, &mut seen, named_at(graph, place))?;
        done += 1;
    }
    Ok(places)
}
