ghost use Rattle.std.specs.Prelude.{◌≡◌, ◌<◌, ◌∷◌, [], length, filter, flat_map, IfOk, OnOk};
ghost use Rattle.authz_file.specs.Words.{is_user};
ghost use Rattle.authz_file.specs.Groups.{targets, users_at, names_at};
ghost use Rattle.authz_file.specs.Searching.{texts, with_names, AddsNames};

use crate::book::Book;
use crate::search::reached_by;
use crate::words::is_user;
use dsv_base::{Bytes, List, NoMemory};
use std::alloc::Global;
use std::collections::BTreeSet;

/// Adds the word, where it is the name of a user.
fn add_user(alloc: Global, names: &mut BTreeSet<Vec<u8>>, word: &[u8]) -> Result<(), NoMemory>
    ensures { OnOk result (AddsNames (λ k. k.items) names.old names.new (filter is_user (word.now ∷ []))) }
{
    if !is_user(word) {
        return Ok(());
    }
    let name = Vec::from_slice(alloc, word)?;
    names.insert(name)?;
    Ok(())
}

/// Adds those words that are names of users.
fn add_users(alloc: Global, names: &mut BTreeSet<Vec<u8>>, words: &[Bytes]) -> Result<(), NoMemory>
    ensures { OnOk result (AddsNames (λ k. k.items) names.old names.new (filter is_user words.now)) }
{
    'words: for word in words {
        add_user(alloc, names, word.get())?;
    }
    Ok(())
}

/// The words of the entry at this place.
fn words_at(book: &Book, place: usize) -> &[Bytes]
    ensures { filter is_user result.now ≡ users_at book.now place }
{
    match book.entries().get(place) {
        Some(entry) => entry.words.get(),
        None => &[],
    }
}

/// The users that the entries at these places name by themselves.
fn users_of(alloc: Global, book: &Book, places: &[usize]) -> Result<BTreeSet<Vec<u8>>, NoMemory>
    ensures { IfOk result (λ s. texts (λ k. k.items) s ≡ with_names [] (flat_map (users_at book.now) places.now)) }
{
    let mut names = BTreeSet::new(alloc);
    'places: for place in places {
        add_users(alloc, &mut names, words_at(book, *place))?;
    }
    Ok(names)
}

/// The names of a set, in byte order.
fn listed(alloc: Global, names: BTreeSet<Vec<u8>>) -> Result<List<Bytes>, NoMemory>
    ensures { IfOk result (λ list. list ≡ texts (λ k. k.items) names) }
{
    let mut list = Vec::new(alloc);
    'names: for name in names {
        list.push(Bytes::from_vec(name))?;
    }
    Ok(List::of(list))
}

/// All users that the entry at this place names, by itself and by way of groups and aliases. The
/// one error is want of memory.
#[tactic(auto, unfolding(crate::specs::Groups::names_at))]
pub(crate) fn names_at(
    alloc: Global,
    book: &Book,
    graph: &[List<usize>],
    place: usize,
) -> Result<List<Bytes>, NoMemory>
    requires graph { graph.now ≡ targets book.now }
    requires place { place < length book.now }
    ensures { IfOk result (λ names. names ≡ names_at book.now place) }
{
    let places = reached_by(alloc, graph, &[place])?;
    let names = users_of(alloc, book, places.as_slice())?;
    let list = listed(alloc, names)?;
    Ok(list)
}
