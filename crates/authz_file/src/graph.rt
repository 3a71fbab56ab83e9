ghost use Rattle.std.specs.Prelude.{◌≡◌, ◌++◌, IfOk, OnOk, filter_map, option_to_list};
ghost use Rattle.authz_file.specs.Groups.{definition_of, named_at, targets};

use crate::book::Book;
use crate::words::is_user;
use dsv_base::{Bytes, List, NoMemory};
use std::alloc::Global;

/// The place of the definition that a word names; none where it is the name of a user, or names
/// nothing.
fn definition_of(book: &Book, word: &[u8]) -> Option<usize>
    ensures { result ≡ definition_of book.now word.now }
{
    if is_user(word) {
        return None;
    }
    book.place(word)
}

fn push_target(places: &mut Vec<usize>, target: Option<usize>) -> Result<(), NoMemory>
    ensures { OnOk result (places.new.items ≡ places.old.items ++ option_to_list target) }
{
    match target {
        None => Ok(()),
        Some(place) => {
            places.push(place)?;
            Ok(())
        }
    }
}

/// The places of the definitions that the words name.
fn word_targets(alloc: Global, book: &Book, words: &[Bytes]) -> Result<List<usize>, NoMemory>
    ensures { IfOk result (λ places. places ≡ filter_map (definition_of book.now) words.now) }
{
    let mut places = Vec::new(alloc);
    'words: for word in words {
        push_target(&mut places, definition_of(book, word.get()))?;
    }
    Ok(List::of(places))
}

/// What the entry at this place names.
pub(crate) fn named_at(graph: &[List<usize>], place: usize) -> &[usize]
    ensures { result.now ≡ named_at graph.now place }
{
    match graph.get(place) {
        Some(named) => named.get(),
        None => &[],
    }
}

/// Per entry the places of the definitions that its words name. The one error is want of memory.
#[tactic(auto, unfolding(crate::specs::Groups::targets))]
pub(crate) fn targets(alloc: Global, book: &Book) -> Result<Vec<List<usize>>, NoMemory>
    ensures { IfOk result (λ graph. graph.items ≡ targets book.now) }
{
    let mut graph = Vec::new(alloc);
    'entries: for entry in book.entries() {
        let places = word_targets(alloc, book, entry.words.get())?;
        graph.push(places)?;
    }
    Ok(graph)
}
