ghost use Rattle.std.specs.Prelude.{◌≡◌, ◌++◌, ◌∷◌, [], IfOk};
ghost use Rattle.dav_elements.specs.Takes.{Takes};
ghost use Rattle.dav_elements.specs.Growing.{fresh, text_part, with_part, elem_of, enter, frame_closed, leave, say, refer, declare};

use crate::around::Around;
use crate::elem::{Elem, Part};
use crate::frame::{Frame, Opened};
use crate::names::is_white;
use crate::opening::{opened_by, outermost};
use crate::progress::Progress;
use crate::tag::Tag;
use crate::unread::Unread;
use dsv_base::{Bytes, List, NoMemory};
use sqlite_items::Items;
use std::alloc::Global;

/// The list with one item more at its end. Its one error is want of memory.
pub fn pushed<T: Drop>(list: List<T>, item: T) -> Result<List<T>, NoMemory>
    ensures { IfOk result (λ all. all ≡ list ++ item ∷ []) }
{
    let mut items = list.into_vec();
    items.push(item)?;
    Ok(List::of(items))
}

fn fresh(alloc: Global, raw: Bytes, head: Opened) -> Frame
    ensures { result ≡ fresh raw head }
{
    Frame {
        raw,
        head,
        parts: Items::new(alloc),
        text: List::of(Vec::new(alloc)),
    }
}

fn with_text(parts: Items<Part>, text: List<u8>) -> Result<Items<Part>, NoMemory>
    ensures { IfOk result (λ all. all ≡ parts ++ text_part text) }
{
    let mut parts = parts;
    if text.get().is_empty() {
        return Ok(parts);
    }
    parts.push(Part::Text(Bytes::from_vec(text.into_vec())))?;
    Ok(parts)
}

fn elem_of(frame: Frame) -> Result<Elem, NoMemory>
    ensures { IfOk result (λ e. e ≡ elem_of frame) }
{
    let Frame {
        raw: _,
        head,
        parts,
        text,
    } = frame;
    let Opened {
        scope: _,
        name,
        attrs,
    } = head;
    let parts = with_text(parts, text)?;
    Ok(Elem { name, attrs, parts })
}

fn with_part(alloc: Global, frame: Frame, part: Part) -> Result<Frame, NoMemory>
    ensures { IfOk result (λ f. f ≡ with_part frame part) }
{
    let Frame {
        raw,
        head,
        parts,
        text,
    } = frame;
    let mut parts = with_text(parts, text)?;
    parts.push(part)?;
    Ok(Frame {
        raw,
        head,
        parts,
        text: List::of(Vec::new(alloc)),
    })
}

/// Reads a start tag.
pub fn enter(alloc: Global, progress: Progress, tag: Tag) -> Result<Progress, Unread>
    ensures { Takes result (enter progress tag) }
{
    match progress {
        Progress::Before(nest, _) => {
            let scope = outermost(alloc, nest)?;
            let head = opened_by(alloc, &scope, &tag)?;
            let Tag { name, attrs: _ } = tag;
            Ok(Progress::Within(fresh(alloc, name, head), Around::none(alloc)))
        }
        Progress::Within(frame, around) => {
            let mut around = around;
            let head = opened_by(alloc, &frame.head.scope, &tag)?;
            let Tag { name, attrs: _ } = tag;
            around.push(frame)?;
            Ok(Progress::Within(fresh(alloc, name, head), around))
        }
        Progress::After(_) => Err(Unread::Bad),
    }
}

fn frame_closed(alloc: Global, frame: Frame, around: Around) -> Result<Progress, NoMemory>
    ensures { IfOk result (λ progress. progress ≡ frame_closed frame around) }
{
    let mut around = around;
    let elem = elem_of(frame)?;
    let outside = match around.pop() {
        None => return Ok(Progress::After(elem)),
        Some(outside) => outside,
    };
    let outside = with_part(alloc, outside, Part::Child(elem))?;
    Ok(Progress::Within(outside, around))
}

/// Reads an end tag, whose name as it is written has to be the start tag's.
pub fn leave(alloc: Global, progress: Progress, name: &[u8]) -> Result<Progress, Unread>
    ensures { Takes result (leave progress name.now) }
{
    match progress {
        Progress::Within(frame, around) => {
            if name != frame.raw.get() {
                return Err(Unread::Bad);
            }
            let progress = frame_closed(alloc, frame, around)?;
            Ok(progress)
        }
        Progress::Before(_, _) => Err(Unread::Bad),
        Progress::After(_) => Err(Unread::Bad),
    }
}

/// Reads a byte of text.
pub fn say(progress: Progress, b: u8) -> Result<Progress, Unread>
    ensures { Takes result (say progress b) }
{
    match progress {
        Progress::Within(frame, around) => {
            let Frame {
                raw,
                head,
                parts,
                text,
            } = frame;
            let text = pushed(text, b)?;
            Ok(Progress::Within(
                Frame {
                    raw,
                    head,
                    parts,
                    text,
                },
                around,
            ))
        }
        Progress::Before(nest, typed) => {
            if !is_white(b) {
                return Err(Unread::Bad);
            }
            Ok(Progress::Before(nest, typed))
        }
        Progress::After(elem) => {
            if !is_white(b) {
                return Err(Unread::Bad);
            }
            Ok(Progress::After(elem))
        }
    }
}

/// Reads bytes that may stand in the element alone.
pub fn refer(progress: Progress, bytes: &[u8]) -> Result<Progress, Unread>
    ensures { Takes result (refer progress bytes.now) }
{
    match progress {
        Progress::Within(frame, around) => {
            let Frame {
                raw,
                head,
                parts,
                text,
            } = frame;
            let mut text = text.into_vec();
            text.extend_from_slice(bytes)?;
            Ok(Progress::Within(
                Frame {
                    raw,
                    head,
                    parts,
                    text: List::of(text),
                },
                around,
            ))
        }
        Progress::Before(_, _) => Err(Unread::Bad),
        Progress::After(_) => Err(Unread::Bad),
    }
}

/// Reads a document type declaration, of which there is one at most, before the element.
pub fn declare(progress: Progress) -> Result<Progress, Unread>
    ensures { Takes result (declare progress) }
{
    match progress {
        Progress::Before(nest, typed) => {
            if typed {
                return Err(Unread::Bad);
            }
            Ok(Progress::Before(nest, true))
        }
        Progress::Within(_, _) => Err(Unread::Bad),
        Progress::After(_) => Err(Unread::Bad),
    }
}
