ghost use Rattle.std.specs.Prelude.{◌≡◌, ◌<◌, ◌≤◌, length, IfOk};
ghost use Rattle.dsv_base.specs.Gives.{Gives};
ghost use Rattle.rev_scripts.specs.Steps.{is_no_memory};
ghost use Rattle.rev_scripts.specs.Items.{two_lengths, three_lengths, copy_numbers, one_part, two_parts, three_parts};

use crate::cursor::{behind_front, bytes_from, number_from, word_from};
use crate::item_fault::ItemFault;
use dsv_base::{Bytes, Rev};

/// The lengths of an item with two parts, each at most `most`.
pub fn two_lengths(most: u64, numbers: &[u8]) -> Result<(u64, u64), ItemFault>
    ensures { Gives is_no_memory result (two_lengths most numbers.now) }
{
    let (one, two) = word_from(numbers)?;
    let one = number_from(most, one)?;
    let two = number_from(most, two)?;
    Ok((one, two))
}

/// The lengths of an item with three parts, each at most `most`.
pub fn three_lengths(most: u64, numbers: &[u8]) -> Result<(u64, u64, u64), ItemFault>
    ensures { Gives is_no_memory result (three_lengths most numbers.now) }
{
    let (one, others) = word_from(numbers)?;
    let one = number_from(most, one)?;
    let (two, three) = two_lengths(most, others)?;
    Ok((one, two, three))
}

/// The length of a copy's source, the revision that it is taken from, which is below `number`, and
/// the length of the new path. No length is above `most`.
pub fn copy_numbers(most: u64, number: Rev, numbers: &[u8]) -> Result<(u64, u64, u64), ItemFault>
    ensures value { Gives is_no_memory result (copy_numbers most number numbers.now) }
    ensures bound { IfOk result (λ x. x.1 < number) }
{
    let (source, others) = word_from(numbers)?;
    let source = number_from(most, source)?;
    let (rev, path) = word_from(others)?;
    let rev = number_from(u64::from(Rev::MOST), rev)?;
    let path = number_from(most, path)?;
    if rev >= u64::from(number.get()) {
        return Err(ItemFault::Bad);
    }
    Ok((source, rev, path))
}

/// The last part of an item, of so many bytes, and what stands after the line feed that ends it.
pub fn one_part(size: u64, text: &Bytes) -> Result<(Bytes, Bytes), ItemFault>
    ensures value { Gives is_no_memory result (one_part size text.now) }
    ensures shorter { IfOk result (λ x. length x.1 ≤ length text.now) }
{
    let (one, rest) = bytes_from(size, text)?;
    let rest = behind_front(b"\n", &rest)?;
    Ok((one, rest))
}

/// The last two parts.
pub fn two_parts(first: u64, second: u64, text: &Bytes) -> Result<(Bytes, Bytes, Bytes), ItemFault>
    ensures value { Gives is_no_memory result (two_parts first second text.now) }
    ensures shorter { IfOk result (λ x. length x.2 ≤ length text.now) }
{
    let (one, rest) = bytes_from(first, text)?;
    let (two, rest) = one_part(second, &rest)?;
    Ok((one, two, rest))
}

/// The three parts of an item.
pub fn three_parts(
    first: u64,
    second: u64,
    third: u64,
    text: &Bytes,
) -> Result<(Bytes, Bytes, Bytes, Bytes), ItemFault>
    ensures value { Gives is_no_memory result (three_parts first second third text.now) }
    ensures shorter { IfOk result (λ x. length x.3 ≤ length text.now) }
{
    let (one, rest) = bytes_from(first, text)?;
    let (two, three, rest) = two_parts(second, third, &rest)?;
    Ok((one, two, three, rest))
}
