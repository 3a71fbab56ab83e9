ghost use Rattle.std.specs.Prelude.{◌≡◌, ◌<◌, ◌≤◌, ◌∷◌, [], false, length, IfOk, IfSome, IfNone, All, take, slice_index, option_copied, map};
ghost use Rattle.std.specs.List.{slice_split};
ghost use Rattle.dsv_base.specs.TextFiles.{is_comma, left_size, trimmed};
ghost use Rattle.authz_file.specs.Words.{words_if, words_of};
ghost use Rattle.authz_file.specs.Reading.{items_left};

use crate::words::is_word;
use dsv_base::{Bytes, List, NoMemory, trimmed};
use std::alloc::Global;

/// Where the first comma stands.
fn comma(text: &[u8]) -> Option<usize>
    ensures none { IfNone result (All (λ b. is_comma b ≡ false) text.now) }
    ensures within { IfSome result (λ at. at < length text.now) }
    ensures at { IfSome result (λ at. slice_index text.now at ≡ 44) }
    ensures before { IfSome result (λ at. All (λ b. is_comma b ≡ false) (take at text.now)) }
{
    text.iter().position(|b| *b == b',')
}

/// What stands before the first comma, and what stands after it, unless there is none.
fn next_item(text: &[u8]) -> (&[u8], Option<&[u8]>)
    ensures item { slice_split is_comma text.now ≡ result.0.now ∷ items_left (option_copied result.1) }
    ensures shorter { left_size (option_copied result.1) ≤ length text.now }
{
    match comma(text) {
        None => (text, None),
        Some(at) => (&text[..at], Some(&text[at + 1..])),
    }
}

/// The items of a list that isn't empty, where each is a word.
fn items_of(alloc: Global, value: &[u8]) -> Result<Option<List<Bytes>>, NoMemory>
    ensures { IfOk result (λ words. words ≡ words_if (map trimmed (slice_split is_comma value.now))) }
{
    let mut words = Vec::new(alloc);
    let mut rest = Some(value);
    'items: while let Some(text) = rest {
        let (item, after) = next_item(text);
        let word = trimmed(item);
        if !is_word(word) {
            return Ok(None);
        }
        let copy = Bytes::of(alloc, word)?;
        words.push(copy)?;
        rest = after;
    }
    Ok(Some(List::of(words)))
}

/// What a group holds; `None` where an item is no word. The one error is want of memory.
#[tactic(auto, unfolding(crate::specs::Words::words_of))]
pub(crate) fn words_of(alloc: Global, value: &[u8]) -> Result<Option<List<Bytes>>, NoMemory>
    ensures { IfOk result (λ words. words ≡ words_of value.now) }
{
    if value.is_empty() {
        return Ok(Some(List::of(Vec::new(alloc))));
    }
    items_of(alloc, value)
}
