ghost use Rattle.std.specs.Prelude.{◌≡◌, false, nat_le, nat_lt, slice_index, IfOk, IsTrue};
ghost use Rattle.std.specs.List.{list_all};
ghost use Rattle.authz_file.specs.Groups.{is_circular};
ghost use Rattle.authz_file.specs.Searching.{NeverRises};

use crate::graph::named_at;
use crate::walk::parts_of;
use dsv_base::{List, NoMemory};
use std::alloc::Global;

/// The rank of a place; 0 where it has none.
fn rank_of(ranks: &[usize], place: usize) -> usize
    ensures { result ≡ slice_index ranks.now place }
{
    match ranks.get(place) {
        Some(rank) => *rank,
        None => 0,
    }
}

/// Whether all these places have ranks up to this one.
fn are_up_to(ranks: &[usize], named: &[usize], rank: usize) -> bool
    ensures { result ≡ list_all (λ place. nat_le (slice_index ranks.now place) rank) named.now }
{
    named.iter().all(|place| rank_of(ranks, *place) <= rank)
}

/// Whether all these places have ranks below this one.
fn are_below(ranks: &[usize], named: &[usize], rank: usize) -> bool
    ensures { result ≡ list_all (λ place. nat_lt (slice_index ranks.now place) rank) named.now }
{
    named.iter().all(|place| rank_of(ranks, *place) < rank)
}

/// Whether no entry names a place of a higher rank.
fn never_rise(graph: &[List<usize>], ranks: &[usize]) -> bool
    ensures { IsTrue result → NeverRises graph.now ranks.now }
{
    'entries: for (place, named) in graph.iter().enumerate() {
        if !are_up_to(ranks, named.get(), rank_of(ranks, place)) {
            return false;
        }
    }
    true
}

/// Ranks that never rise along the graph, so that a search can be spared where they fall. The one
/// error is want of memory.
pub(crate) fn ranks_of(alloc: Global, graph: &[List<usize>]) -> Result<Vec<usize>, NoMemory>
    ensures { IfOk result (λ ranks. NeverRises graph.now ranks.items) }
{
    let ranks = parts_of(alloc, graph)?;
    if never_rise(graph, ranks.as_slice()) {
        return Ok(ranks);
    }
    Ok(Vec::new(alloc))
}

/// Whether the ranks show that the entry doesn't reach itself; `false` says nothing.
pub(crate) fn is_clear(graph: &[List<usize>], ranks: &[usize], place: usize) -> bool
    requires { NeverRises graph.now ranks.now }
    ensures { IsTrue result → is_circular graph.now place ≡ false }
{
    are_below(ranks, named_at(graph, place), rank_of(ranks, place))
}
