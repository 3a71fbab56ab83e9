ghost use Rattle.std.specs.Prelude.{◌≡◌, ◌+◌, ◌<◌, ◌≤◌, length, IfOk, codes, count_by};
ghost use Rattle.dsv_base.specs.Gives.{Gives};
ghost use Rattle.dsv_base.specs.Names.{is_repository_name};
ghost use Rattle.dsv_base.specs.Lines.{is_line_feed};
ghost use Rattle.rev_scripts.specs.Steps.{is_no_memory, line_after};
ghost use Rattle.rev_nodes.specs.Commits.{is_author};
ghost use Rattle.rev_scripts.specs.Uuids.{is_uuid};
ghost use Rattle.rev_scripts.specs.Items.{nothing_told};
ghost use Rattle.rev_scripts.specs.Scripts.{told_line, heading_from, revision_line, revision_head, next_item, items_from, wants_memory, UnlessNoMemory};

use crate::cursor::{after_front, behind_front, line_from, number_from, word_from};
use crate::item::Item;
use crate::item_fault::ItemFault;
use crate::items::item_from;
use crate::parts::one_part;
use crate::script_fault::ScriptFault;
use crate::told::Told;
use crate::uuid::is_uuid_text;
use dsv_base::{Bytes, Moment, Rev, is_repository_name, is_user_name};

/// The name and the uuid at the head of a script, and what stands after its three lines.
#[tactic(auto, unfolding(crate::specs::Scripts::heading_from))]
pub fn heading_from(text: &Bytes) -> Result<(Bytes, Bytes, Bytes), ScriptFault>
    ensures value { Gives wants_memory result (heading_from text.now) }
    ensures shorter { IfOk result (λ x. length x.2 ≤ length text.now) }
{
    let rest = match behind_front(b"davsvn-script 1\n", text) {
        Ok(rest) => rest,
        Err(fault) => return Err(fault.at(1)),
    };
    let (name, rest) = match repos_line(&rest) {
        Ok(line) => line,
        Err(fault) => return Err(fault.at(2)),
    };
    let (uuid, rest) = match uuid_line(&rest) {
        Ok(line) => line,
        Err(fault) => return Err(fault.at(3)),
    };
    Ok((name, uuid, rest))
}

fn repos_line(text: &Bytes) -> Result<(Bytes, Bytes), ItemFault>
    ensures value { Gives is_no_memory result (told_line is_repository_name (codes "repos ") text.now) }
    ensures shorter { IfOk result (λ x. length x.1 ≤ length text.now) }
{
    let told = behind_front(b"repos ", text)?;
    let (name, rest) = line_from(&told)?;
    if !is_repository_name(name.get()) {
        return Err(ItemFault::Bad);
    }
    Ok((name, rest))
}

fn uuid_line(text: &Bytes) -> Result<(Bytes, Bytes), ItemFault>
    ensures value { Gives is_no_memory result (told_line is_uuid (codes "uuid ") text.now) }
    ensures shorter { IfOk result (λ x. length x.1 ≤ length text.now) }
{
    let told = behind_front(b"uuid ", text)?;
    let (uuid, rest) = line_from(&told)?;
    if !is_uuid_text(uuid.get()) {
        return Err(ItemFault::Bad);
    }
    Ok((uuid, rest))
}

/// The moment, and the length of the author's name, which is at most `most`, in the first line of
/// the revision of this number.
#[tactic(auto, unfolding(crate::specs::Scripts::revision_line))]
fn revision_line(most: u64, number: Rev, line: &[u8]) -> Result<(u64, u64), ItemFault>
    ensures value { Gives is_no_memory result (revision_line most number line.now) }
    ensures bound { IfOk result (λ x. x.0 ≤ 253402300799999999) }
{
    let numbers = after_front(b"revision ", line)?;
    let (told, rest) = word_from(numbers)?;
    let told = number_from(u64::from(Rev::MOST), told)?;
    let (moment, author) = word_from(rest)?;
    let moment = number_from(Moment::MOST, moment)?;
    let author = number_from(most, author)?;
    if told != u64::from(number.get()) {
        return Err(ItemFault::Bad);
    }
    Ok((moment, author))
}

/// The moment and the author of the revision of this number, and what stands after the two lines
/// that tell them.
#[tactic(auto, unfolding(crate::specs::Scripts::revision_head))]
pub fn revision_head(number: Rev, text: &Bytes) -> Result<(Moment, Bytes, Bytes), ItemFault>
    ensures value { Gives is_no_memory result (revision_head number text.now) }
    ensures shorter { IfOk result (λ x. length x.2 < length text.now) }
{
    let (line, rest) = line_from(text)?;
    let (moment, author) = revision_line(rest.get().len() as u64, number, line.get())?;
    let (author, rest) = one_part(author, &rest)?;
    if !is_author(author.get()) {
        return Err(ItemFault::Bad);
    }
    let Some(moment) = Moment::of(moment) else {
        return Err(ItemFault::Bad);
    };
    Ok((moment, author, rest))
}

/// An author is a user, or nobody.
fn is_author(name: &[u8]) -> bool
    ensures { result ≡ is_author name.now }
{
    name.is_empty() || is_user_name(name)
}

/// The line where `rest` begins, which is what is left of a text that begins at `line`.
pub fn line_after(line: u32, text: &Bytes, rest: &Bytes) -> u32
    requires suffix { length rest.now ≤ length text.now }
    requires room { line + length text.now ≤ 4294967295 }
    ensures value { result ≡ line_after line text.now rest.now }
    ensures room { result + length rest.now ≤ line + length text.now }
{
    let text = text.get();
    let read = &text[..text.len() - rest.get().len()];
    line + line_feeds(read)
}

fn line_feeds(text: &[u8]) -> u32
    requires { length text.now ≤ 4294967295 }
    ensures value { result ≡ count_by is_line_feed text.now }
    ensures bound { result ≤ length text.now }
{
    text.iter().filter(|b| **b == b'\n').count() as u32
}

/// The next item of a revision that has told so much, and what stands after it.
#[tactic(auto, unfolding(crate::specs::Scripts::next_item))]
fn next_item(
    number: Rev,
    told: &Told,
    line: u32,
    text: &Bytes,
) -> Result<(Item, Bytes), ScriptFault>
    ensures value { Gives wants_memory result (next_item number told.now line text.now) }
    ensures shorter { IfOk result (λ x. length x.1 < length text.now) }
{
    match item_from(number, text) {
        Err(fault) => Err(fault.at(line)),
        Ok((item, rest)) => {
            if !told.may_take(number, &item) {
                return Err(ScriptFault::BadScript { line });
            }
            Ok((item, rest))
        }
    }
}

/// Reads the items of the revision of this number, which begin at this line, up to its end or a
/// fault: the line and the text after it. What they tell goes to `told`, also before a fault.
pub fn read_items(
    number: Rev,
    told: &mut Told,
    line: u32,
    text: Bytes,
) -> Result<(u32, Bytes), ScriptFault>
    requires { line + length text ≤ 4294967295 }
    ensures after { Gives wants_memory result (items_from (length text) number told.old line text).1 }
    ensures told { UnlessNoMemory result (told.new ≡ (items_from (length text) number told.old line text).0) }
    ensures room { IfOk result (λ x. x.0 + length x.1 ≤ line + length text) }
    ensures shorter { IfOk result (λ x. length x.1 ≤ length text) }
    ensures few { UnlessNoMemory result (length told.new.changes ≤ length told.old.changes + length text) }
{
    let mut begins = line;
    let mut rest = text;
    'items: loop {
        let (item, after) = next_item(number, told, begins, &rest)?;
        let next = line_after(begins, &rest, &after);
        match item {
            Item::End => return Ok((next, after)),
            Item::Prop(prop) => told.add_prop(prop)?,
            Item::Change(change) => told.add_change(change, begins)?,
        }
        begins = next;
        rest = after;
    }
}
