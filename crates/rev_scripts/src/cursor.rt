ghost use Rattle.std.specs.Prelude.{◌≡◌, ◌+◌, ◌<◌, ◌≤◌, length, IfOk};
ghost use Rattle.dsv_base.specs.Gives.{Gives, GivesBy};
ghost use Rattle.rev_scripts.specs.Steps.{line_from, word_from, after_front, bytes_from, number_from, is_no_memory};

use crate::item_fault::ItemFault;
use dsv_base::{Bytes, cut_at, cut_bytes, read_decimal};

/// The first line, and what stands after its line feed.
pub fn line_from(text: &Bytes) -> Result<(Bytes, Bytes), ItemFault>
    ensures value { Gives is_no_memory result (line_from text.now) }
    ensures shorter { IfOk result (λ x. length x.1 < length text.now) }
{
    match cut_bytes(text, b'\n')? {
        Some(cut) => Ok(cut),
        None => Err(ItemFault::Bad),
    }
}

/// The first word, and what stands after the blank that ends it.
pub fn word_from(text: &[u8]) -> Result<(&[u8], &[u8]), ItemFault>
    ensures { GivesBy (λ x. (x.0.now, x.1.now)) is_no_memory result (word_from text.now) }
{
    match cut_at(text, b' ') {
        Some(cut) => Ok(cut),
        None => Err(ItemFault::Bad),
    }
}

/// What stands after `front` in a line.
pub fn after_front<'a>(front: &[u8], line: &'a [u8]) -> Result<&'a [u8], ItemFault>
    ensures { GivesBy (λ x. x.now) is_no_memory result (after_front front.now line.now) }
{
    if line.starts_with(front) {
        Ok(&line[front.len()..])
    } else {
        Err(ItemFault::Bad)
    }
}

/// What stands after `front` in a text.
pub fn behind_front(front: &[u8], text: &Bytes) -> Result<Bytes, ItemFault>
    ensures value { Gives is_no_memory result (after_front front.now text.now) }
    ensures shorter { IfOk result (λ x. length x ≤ length text.now) }
{
    if !text.get().starts_with(front) {
        return Err(ItemFault::Bad);
    }
    let rest = text.after(front.len())?;
    Ok(rest)
}

/// So many bytes, and what stands after them.
pub fn bytes_from(count: u64, text: &Bytes) -> Result<(Bytes, Bytes), ItemFault>
    ensures value { Gives is_no_memory result (bytes_from count text.now) }
    ensures shorter { IfOk result (λ x. length x.1 ≤ length text.now) }
{
    if count > text.get().len() as u64 {
        return Err(ItemFault::Bad);
    }
    let count = count as usize;
    let front = text.part(0, count)?;
    let rest = text.after(count)?;
    Ok((front, rest))
}

/// The number that `text` spells in decimal, up to `most`.
pub fn number_from(most: u64, text: &[u8]) -> Result<u64, ItemFault>
    ensures value { Gives is_no_memory result (number_from most text.now) }
    ensures bound { IfOk result (λ n. n ≤ most) }
{
    match read_decimal(text, most) {
        Some(number) => Ok(number),
        None => Err(ItemFault::Bad),
    }
}
