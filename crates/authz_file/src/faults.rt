ghost use Rattle.std.specs.Prelude.{◌≡◌, IfOk, nat_eq};
ghost use Rattle.std.specs.List.{list_any};
ghost use Rattle.authz_file.specs.Groups.{is_circular, targets};
ghost use Rattle.authz_file.specs.Searching.{IsGraph, NeverRises};
ghost use Rattle.authz_file.specs.Resolving.{unknown, word_fault, words_fault, entry_fault, faults_from};

use crate::book::Book;
use crate::graph::named_at;
use crate::ranks::{is_clear, ranks_of};
use crate::rules_fault::RulesFault;
use crate::search::reached_by;
use crate::section_entry::SectionEntry;
use crate::words::is_user;
use dsv_base::{Bytes, List, NoMemory};
use std::alloc::Global;

/// The fault of a word that names nothing.
fn unknown(line: u32, word: &[u8]) -> RulesFault
    ensures { result ≡ unknown line word.now }
{
    match word {
        [b'@', ..] => RulesFault::UnknownGroup { line },
        _ => RulesFault::UnknownAlias { line },
    }
}

fn word_fault(book: &Book, line: u32, word: &[u8]) -> Option<RulesFault>
    ensures { result ≡ word_fault book.now line word.now }
{
    if is_user(word) {
        return None;
    }
    match book.place(word) {
        Some(_) => None,
        None => Some(unknown(line, word)),
    }
}

/// The fault of the first word that has one.
fn words_fault(book: &Book, line: u32, words: &[Bytes]) -> Option<RulesFault>
    ensures { result ≡ words_fault book.now line words.now }
{
    'words: for word in words {
        if let Some(fault) = word_fault(book, line, word.get()) {
            return Some(fault);
        }
    }
    None
}

/// Whether what is reached from the entry at this place has that entry.
fn is_circular(alloc: Global, graph: &[List<usize>], place: usize) -> Result<bool, NoMemory>
    requires { IsGraph graph.now }
    ensures { IfOk result (λ circular. circular ≡ is_circular graph.now place) }
{
    let places = reached_by(alloc, graph, named_at(graph, place))?;
    Ok(has(places.as_slice(), place))
}

fn has(places: &[usize], place: usize) -> bool
    ensures { result ≡ list_any (nat_eq place) places.now }
{
    places.iter().any(|other| place == *other)
}

/// The fault of the entry at this place.
#[tactic(auto, unfolding(crate::specs::Resolving::entry_fault))]
fn entry_fault(
    alloc: Global,
    book: &Book,
    graph: &[List<usize>],
    ranks: &[usize],
    place: usize,
    entry: &SectionEntry,
) -> Result<Option<RulesFault>, NoMemory>
    requires graph { graph.now ≡ targets book.now }
    requires ranks { NeverRises graph.now ranks.now }
    ensures { IfOk result (λ fault. fault ≡ entry_fault book.now place entry.now) }
{
    if let Some(fault) = words_fault(book, entry.line, entry.words.get()) {
        return Ok(Some(fault));
    }
    if is_clear(graph, ranks, place) {
        return Ok(None);
    }
    if is_circular(alloc, graph, place)? {
        return Ok(Some(RulesFault::GroupCycle { line: entry.line }));
    }
    Ok(None)
}

/// The first fault of all entries. The one error is want of memory.
pub(crate) fn first_fault(
    alloc: Global,
    book: &Book,
    graph: &[List<usize>],
) -> Result<Option<RulesFault>, NoMemory>
    requires { graph.now ≡ targets book.now }
    ensures { IfOk result (λ fault. fault ≡ faults_from book.now 0 book.now) }
{
    let ranks = ranks_of(alloc, graph)?;
    'entries: for (place, entry) in book.entries().iter().enumerate() {
        if let Some(fault) = entry_fault(alloc, book, graph, ranks.as_slice(), place, entry)? {
            return Ok(Some(fault));
        }
    }
    Ok(None)
}
