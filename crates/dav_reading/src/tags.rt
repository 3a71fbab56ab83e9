ghost use Rattle.std.specs.Prelude.{◌≡◌, ◌≤◌, ◌+◌, ◌∷◌, [], Option, IfOk, length, option_and_then};
ghost use Rattle.dav_elements.specs.Takes.{Takes};
ghost use Rattle.dav_reading.specs.declared.mode.Mode.TheVariants as modes;
ghost use Rattle.dav_reading.specs.declared.mode.Place.{Place};
ghost use Rattle.dav_reading.specs.Modes.{read_bytes};
ghost use Rattle.dav_reading.specs.Runs.{GoesBy, reader_at, reader_in};

use crate::contents::{closing, slash};
use crate::form_place::FormPlace;
use crate::mode::{Mode, Place, Reader};
use crate::run::{Run, run_left};
use crate::starts::read_behind;
use dav_elements::{Progress, Tag, Unread, begins_name};
use dsv_base::{Bytes, List, NoMemory};
use std::alloc::Global;

/// The reader that stands there, before a text.
fn standing<'a>(
    place: Result<Place, Unread>,
    begun: u64,
    form: Option<FormPlace>,
    text: &'a [u8],
) -> Result<(Reader, &'a [u8]), Unread>
    ensures goes { (whole : Option Place) → Takes place whole → GoesBy (λ x. read_bytes x.0 x.1.now) result (option_and_then (λ p. read_bytes (reader_at p begun form) text.now) whole) }
    ensures shorter { IfOk result (λ x. length x.1.now ≤ length text.now) }
{
    match place {
        Err(fault) => Err(fault),
        Ok(place) => Ok((Reader { place, begun, form }, text)),
    }
}

/// Reads what stands behind the name of a start tag, where the tag ends there.
fn name_ended<'a>(
    alloc: Global,
    progress: Progress,
    begun: u64,
    form: Option<FormPlace>,
    name: Vec<u8>,
    text: &'a [u8],
) -> Result<(Reader, &'a [u8]), Unread>
    ensures goes { GoesBy (λ x. read_bytes x.0 x.1.now) result (read_bytes (reader_in (modes.Naming name.items) progress begun form) text.now) }
    ensures shorter { IfOk result (λ x. length x.1.now ≤ length text.now) }
{
    match text {
        [b'>', rest @ ..] => {
            let tag = tag_named(alloc, name);
            standing(read_behind(alloc, progress, tag, b'>'), begun, form, rest)
        }
        [b'/', b'>', rest @ ..] => {
            let tag = tag_named(alloc, name);
            standing(slash(alloc, progress, tag, b'>'), begun, form, rest)
        }
        _ => {
            let mode = Mode::Naming(List::of(name));
            let place = Place { mode, progress };
            Ok((Reader { place, begun, form }, text))
        }
    }
}

/// A tag without attributes.
fn tag_named(alloc: Global, name: Vec<u8>) -> Tag
    ensures { result ≡ record { name = name.items; attrs = [] } }
{
    Tag {
        name: Bytes::from_vec(name),
        attrs: List::of(Vec::new(alloc)),
    }
}

/// Reads a start tag behind its `<` and the first byte of its name, to the name's end or its own.
fn named_on<'a>(
    alloc: Global,
    progress: Progress,
    begun: u64,
    form: Option<FormPlace>,
    first: u8,
    text: &'a [u8],
) -> Result<(Reader, &'a [u8]), Unread>
    ensures goes { GoesBy (λ x. read_bytes x.0 x.1.now) result (read_bytes (reader_in (modes.Naming (first ∷ [])) progress begun form) text.now) }
    ensures shorter { IfOk result (λ x. length x.1.now ≤ length text.now) }
{
    let mut name = Vec::new(alloc);
    name.push(first)?;
    let (name, rest) = run_left(Run::Name, name, text)?;
    name_ended(alloc, progress, begun, form, name, rest)
}

/// Reads an end tag behind its `</`, to the name's end or its own.
fn closing_on<'a>(
    alloc: Global,
    progress: Progress,
    begun: u64,
    form: Option<FormPlace>,
    text: &'a [u8],
) -> Result<(Reader, &'a [u8]), Unread>
    ensures goes { GoesBy (λ x. read_bytes x.0 x.1.now) result (read_bytes (reader_in (modes.Closing []) progress begun form) text.now) }
    ensures shorter { IfOk result (λ x. length x.1.now ≤ length text.now) }
{
    let (name, rest) = run_left(Run::Name, Vec::new(alloc), text)?;
    closing_ended(alloc, progress, begun, form, List::of(name), rest)
}

/// Reads the byte behind the name of an end tag.
#[tactic(auto, using(crate::proofs::Running::closing_goes))]
fn closing_ended<'a>(
    alloc: Global,
    progress: Progress,
    begun: u64,
    form: Option<FormPlace>,
    name: List<u8>,
    text: &'a [u8],
) -> Result<(Reader, &'a [u8]), Unread>
    ensures goes { GoesBy (λ x. read_bytes x.0 x.1.now) result (read_bytes (reader_in (modes.Closing name) progress begun form) text.now) }
    ensures shorter { IfOk result (λ x. length x.1.now ≤ length text.now) }
{
    match text {
        [b, rest @ ..] => standing(closing(alloc, progress, name, *b), begun, form, rest),
        [] => {
            let mode = Mode::Closing(name);
            let place = Place { mode, progress };
            Ok((Reader { place, begun, form }, text))
        }
    }
}

/// Reads a tag behind its `<`, to the name's end or its own.
pub fn tag_on<'a>(
    alloc: Global,
    progress: Progress,
    begun: u64,
    form: Option<FormPlace>,
    text: &'a [u8],
) -> Result<(Reader, &'a [u8]), Unread>
    ensures goes { GoesBy (λ x. read_bytes x.0 x.1.now) result (read_bytes (reader_in modes.Less progress begun form) text.now) }
    ensures shorter { IfOk result (λ x. length x.1.now ≤ length text.now) }
{
    match text {
        [b'/', rest @ ..] => closing_on(alloc, progress, begun, form, rest),
        [b, rest @ ..] if begins_name(*b) => {
            let begun = one_more(begun)?;
            named_on(alloc, progress, begun, form, *b, rest)
        }
        _ => {
            let place = Place {
                mode: Mode::Less,
                progress,
            };
            Ok((Reader { place, begun, form }, text))
        }
    }
}

/// There is no memory for a text with more elements than a number tells.
fn one_more(begun: u64) -> Result<u64, NoMemory>
    ensures { IfOk result (λ now. now ≡ begun + 1) }
{
    match begun.checked_add(1) {
        Some(begun) => Ok(begun),
        None => Err(NoMemory),
    }
}
