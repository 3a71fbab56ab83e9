ghost use Rattle.std.specs.Prelude.{◌≡◌, ◌<◌, ◌≤◌, length, IfOk};
ghost use Rattle.dsv_base.specs.Gives.{Gives};
ghost use Rattle.dsv_base.specs.Paths.{is_path};
ghost use Rattle.rev_nodes.specs.PropertyNames.{is_property_name, is_revision_property};
ghost use Rattle.rev_scripts.specs.Steps.{is_no_memory, ok_where};
ghost use Rattle.rev_scripts.specs.Items.{prop_from, mkdir_from, delete_from, put_from, setprop_from, delprop_from, copy_from, item_of, item_after, item_from};

use crate::cursor::{line_from, number_from, word_from};
use crate::item::Item;
use crate::item_fault::ItemFault;
use crate::parts::{copy_numbers, one_part, three_lengths, three_parts, two_lengths, two_parts};
use dsv_base::{Bytes, Path, Prop, Rev};
use rev_nodes::{Change, Text, is_property_name, is_revision_property};

/// The first item of `text`, which is of the revision of this number, and what stands after it.
#[tactic(auto, unfolding(crate::specs::Items::item_from))]
pub fn item_from(number: Rev, text: &Bytes) -> Result<(Item, Bytes), ItemFault>
    ensures value { Gives is_no_memory result (item_from number text.now) }
    ensures shorter { IfOk result (λ x. length x.1 < length text.now) }
{
    let (line, rest) = line_from(text)?;
    item_after(number, line.get(), rest)
}

/// The item whose first line is `line`.
#[tactic(auto, unfolding(crate::specs::Items::item_after))]
fn item_after(number: Rev, line: &[u8], text: Bytes) -> Result<(Item, Bytes), ItemFault>
    ensures value { Gives is_no_memory result (item_after number line.now text) }
    ensures shorter { IfOk result (λ x. length x.1 ≤ length text) }
{
    if line == b"end".as_slice() {
        return Ok((Item::End, text));
    }
    let (word, numbers) = word_from(line)?;
    item_of(number, word, numbers, &text)
}

/// The item of this word.
#[tactic(auto, unfolding(crate::specs::Items::item_of))]
fn item_of(
    number: Rev,
    word: &[u8],
    numbers: &[u8],
    text: &Bytes,
) -> Result<(Item, Bytes), ItemFault>
    ensures value { Gives is_no_memory result (item_of number word.now numbers.now text.now) }
    ensures shorter { IfOk result (λ x. length x.1 ≤ length text.now) }
{
    if word == b"prop".as_slice() {
        return prop_from(numbers, text);
    }
    if word == b"mkdir".as_slice() {
        return mkdir_from(numbers, text);
    }
    if word == b"delete".as_slice() {
        return delete_from(numbers, text);
    }
    if word == b"put".as_slice() {
        return put_from(numbers, text);
    }
    if word == b"setprop".as_slice() {
        return setprop_from(numbers, text);
    }
    if word == b"delprop".as_slice() {
        return delprop_from(numbers, text);
    }
    if word == b"copy".as_slice() {
        return copy_from(number, numbers, text);
    }
    Err(ItemFault::Bad)
}

fn prop_from(numbers: &[u8], text: &Bytes) -> Result<(Item, Bytes), ItemFault>
    ensures value { Gives is_no_memory result (prop_from numbers.now text.now) }
    ensures shorter { IfOk result (λ x. length x.1 ≤ length text.now) }
{
    let (name, value) = two_lengths(text.get().len() as u64, numbers)?;
    let (name, value, rest) = two_parts(name, value, text)?;
    if !is_revision_property(name.get()) {
        return Err(ItemFault::Bad);
    }
    Ok((Item::Prop(Prop { name, value }), rest))
}

fn mkdir_from(numbers: &[u8], text: &Bytes) -> Result<(Item, Bytes), ItemFault>
    ensures value { Gives is_no_memory result (mkdir_from numbers.now text.now) }
    ensures shorter { IfOk result (λ x. length x.1 ≤ length text.now) }
{
    let size = number_from(text.get().len() as u64, numbers)?;
    let (path, rest) = one_part(size, text)?;
    let path = path_of(path)?;
    Ok((Item::Change(Change::Mkdir { path }), rest))
}

fn delete_from(numbers: &[u8], text: &Bytes) -> Result<(Item, Bytes), ItemFault>
    ensures value { Gives is_no_memory result (delete_from numbers.now text.now) }
    ensures shorter { IfOk result (λ x. length x.1 ≤ length text.now) }
{
    let size = number_from(text.get().len() as u64, numbers)?;
    let (path, rest) = one_part(size, text)?;
    let path = path_of(path)?;
    Ok((Item::Change(Change::Delete { path }), rest))
}

fn put_from(numbers: &[u8], text: &Bytes) -> Result<(Item, Bytes), ItemFault>
    ensures value { Gives is_no_memory result (put_from numbers.now text.now) }
    ensures shorter { IfOk result (λ x. length x.1 ≤ length text.now) }
{
    let (path, content) = two_lengths(text.get().len() as u64, numbers)?;
    let (path, text, rest) = two_parts(path, content, text)?;
    let path = path_of(path)?;
    let text = Text::of(text)?;
    Ok((Item::Change(Change::Put { path, text }), rest))
}

fn setprop_from(numbers: &[u8], text: &Bytes) -> Result<(Item, Bytes), ItemFault>
    ensures value { Gives is_no_memory result (setprop_from numbers.now text.now) }
    ensures shorter { IfOk result (λ x. length x.1 ≤ length text.now) }
{
    let (path, name, value) = three_lengths(text.get().len() as u64, numbers)?;
    let (path, name, value, rest) = three_parts(path, name, value, text)?;
    let path = path_of(path)?;
    let name = name_of(name)?;
    Ok((Item::Change(Change::SetProp { path, name, value }), rest))
}

fn delprop_from(numbers: &[u8], text: &Bytes) -> Result<(Item, Bytes), ItemFault>
    ensures value { Gives is_no_memory result (delprop_from numbers.now text.now) }
    ensures shorter { IfOk result (λ x. length x.1 ≤ length text.now) }
{
    let (path, name) = two_lengths(text.get().len() as u64, numbers)?;
    let (path, name, rest) = two_parts(path, name, text)?;
    let path = path_of(path)?;
    let name = name_of(name)?;
    Ok((Item::Change(Change::DelProp { path, name }), rest))
}

fn copy_from(number: Rev, numbers: &[u8], text: &Bytes) -> Result<(Item, Bytes), ItemFault>
    ensures value { Gives is_no_memory result (copy_from number numbers.now text.now) }
    ensures shorter { IfOk result (λ x. length x.1 ≤ length text.now) }
{
    let (source, rev, path) = copy_numbers(text.get().len() as u64, number, numbers)?;
    let (source, path, rest) = two_parts(source, path, text)?;
    let source = path_of(source)?;
    let path = path_of(path)?;
    let Some(source_rev) = Rev::of(rev as u32) else {
        return Err(ItemFault::Bad);
    };
    let change = Change::Copy {
        source,
        source_rev,
        path,
    };
    Ok((Item::Change(change), rest))
}

fn path_of(text: Bytes) -> Result<Path, ItemFault>
    ensures { Gives is_no_memory result (ok_where (is_path text) text) }
{
    match Path::from_bytes(text) {
        Some(path) => Ok(path),
        None => Err(ItemFault::Bad),
    }
}

fn name_of(text: Bytes) -> Result<Bytes, ItemFault>
    ensures { Gives is_no_memory result (ok_where (is_property_name text) text) }
{
    if !is_property_name(text.get()) {
        return Err(ItemFault::Bad);
    }
    Ok(text)
}
