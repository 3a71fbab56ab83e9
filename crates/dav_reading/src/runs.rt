ghost use Rattle.std.specs.Prelude.{◌≡◌, nat_eq, false, ◌≤◌, ◌<◌, ◌++◌, ℕ, List, Some, None, length, option_and_then, IfOk, IfSome, MatchOption};
ghost use Rattle.dav_reading.specs.declared.mode.Mode.TheVariants as modes;
ghost use Rattle.dav_elements.specs.declared.progress.Progress.TheVariants.{Within};
ghost use Rattle.dav_reading.specs.declared.mode.Brackets.TheVariants.{Zero};
ghost use Rattle.dav_reading.specs.Modes.{read_bytes};
ghost use Rattle.dav_reading.specs.References.{referred};
ghost use Rattle.dav_reading.specs.Runs.{GoesBy, GoesOn, Refers, reader_in, reference_in};

use crate::form_place::FormPlace;
use crate::mode::{Brackets, Mode, Place, Reader};
use crate::references::referred;
use crate::run::{Run, run_left};
use crate::tags::tag_on;
use dav_elements::{Around, Frame, Progress, Tag, Unread};
use dsv_base::{Bytes, List, cut_at};
use std::alloc::Global;

fn reference_in(text: &[u8]) -> Option<(&[u8], &[u8])>
    ensures cut { MatchOption result (reference_in text.now ≡ None) (λ x. reference_in text.now ≡ Some (x.0.now, x.1.now)) }
    ensures shorter { IfSome result (λ x. length x.1.now < length text.now) }
{
    match text {
        [] => None,
        [b, behind @ ..] => {
            if *b != b'&' {
                return None;
            }
            cut_at(behind, b';')
        }
    }
}

/// A reference and the run behind it.
fn reference_read<'a>(
    alloc: Global,
    run: Run,
    read: Vec<u8>,
    word: &[u8],
    behind: &'a [u8],
) -> Result<(Vec<u8>, &'a [u8]), Unread>
    ensures goes { (at : List ℕ → Reader) → GoesOn run at → GoesBy (λ x. read_bytes (at x.0.items) x.1.now) result (option_and_then (λ bytes. read_bytes (at (read.items ++ bytes)) behind.now) (referred word.now)) }
    ensures shorter { IfOk result (λ x. length x.1.now ≤ length behind.now) }
{
    let bytes = referred(alloc, word)?;
    let mut read = read;
    read.extend_from_slice(bytes.get())?;
    let (read, rest) = run_left(run, read, behind)?;
    Ok((read, rest))
}

/// All runs in front of a text, with the references between them, and what stands behind.
fn pieces_read(
    alloc: Global,
    run: Run,
    read: Vec<u8>,
    text: &[u8],
) -> Result<(Vec<u8>, &[u8]), Unread>
    ensures goes { (at : List ℕ → Reader) → GoesOn run at → Refers at → GoesBy (λ x. read_bytes (at x.0.items) x.1.now) result (read_bytes (at read.items) text.now) }
    ensures shorter { IfOk result (λ x. length x.1.now ≤ length text.now) }
{
    let (first, behind) = run_left(run, read, text)?;
    let mut read = first;
    let mut rest = behind;
    'references: loop {
        match reference_in(rest) {
            None => return Ok((read, rest)),
            Some((word, behind)) => {
                let (more, left) = reference_read(alloc, run, read, word, behind)?;
                read = more;
                rest = left;
            }
        }
    }
}

fn naming_on(
    progress: Progress,
    begun: u64,
    form: Option<FormPlace>,
    name: List<u8>,
    text: &[u8],
) -> Result<(Reader, &[u8]), Unread>
    ensures goes { GoesBy (λ x. read_bytes x.0 x.1.now) result (read_bytes (reader_in (modes.Naming name) progress begun form) text.now) }
    ensures shorter { IfOk result (λ x. length x.1.now ≤ length text.now) }
{
    let (name, rest) = run_left(Run::Name, name.into_vec(), text)?;
    let mode = Mode::Naming(List::of(name));
    let place = Place { mode, progress };
    Ok((Reader { place, begun, form }, rest))
}

fn valued_on<'a>(
    alloc: Global,
    progress: Progress,
    begun: u64,
    form: Option<FormPlace>,
    tag: Tag,
    key: Bytes,
    quote: u8,
    value: List<u8>,
    text: &'a [u8],
) -> Result<(Reader, &'a [u8]), Unread>
    requires { nat_eq 38 quote ≡ false }
    ensures goes { GoesBy (λ x. read_bytes x.0 x.1.now) result (read_bytes (reader_in (modes.Valued tag key quote value) progress begun form) text.now) }
    ensures shorter { IfOk result (λ x. length x.1.now ≤ length text.now) }
{
    match pieces_read(alloc, Run::Value(quote), value.into_vec(), text) {
        Err(fault) => Err(fault),
        Ok((value, rest)) => {
            let mode = Mode::Valued(tag, key, quote, List::of(value));
            let place = Place { mode, progress };
            Ok((Reader { place, begun, form }, rest))
        }
    }
}

fn text_on<'a>(
    alloc: Global,
    frame: Frame,
    around: Around,
    begun: u64,
    form: Option<FormPlace>,
    text: &'a [u8],
) -> Result<(Reader, &'a [u8]), Unread>
    ensures goes { GoesBy (λ x. read_bytes x.0 x.1.now) result (read_bytes (reader_in (modes.Content Zero) (Within frame around) begun form) text.now) }
    ensures shorter { IfOk result (λ x. length x.1.now ≤ length text.now) }
{
    let Frame {
        raw,
        head,
        parts,
        text: read,
    } = frame;
    match pieces_read(alloc, Run::Text, read.into_vec(), text) {
        Err(fault) => Err(fault),
        Ok((read, rest)) => {
            let frame = Frame {
                raw,
                head,
                parts,
                text: List::of(read),
            };
            let mode = Mode::Content(Brackets::Zero);
            let progress = Progress::Within(frame, around);
            let place = Place { mode, progress };
            Ok((Reader { place, begun, form }, rest))
        }
    }
}

fn content_on<'a>(
    alloc: Global,
    progress: Progress,
    begun: u64,
    form: Option<FormPlace>,
    text: &'a [u8],
) -> Result<(Reader, &'a [u8]), Unread>
    ensures goes { GoesBy (λ x. read_bytes x.0 x.1.now) result (read_bytes (reader_in (modes.Content Zero) progress begun form) text.now) }
    ensures shorter { IfOk result (λ x. length x.1.now ≤ length text.now) }
{
    match progress {
        Progress::Within(frame, around) => text_on(alloc, frame, around, begun, form, text),
        progress => {
            let mode = Mode::Content(Brackets::Zero);
            let place = Place { mode, progress };
            Ok((Reader { place, begun, form }, text))
        }
    }
}

/// Reads a run in front of a text, where the reader stands in what has runs; else nothing.
pub fn run_on<'a>(
    alloc: Global,
    reader: Reader,
    text: &'a [u8],
) -> Result<(Reader, &'a [u8]), Unread>
    ensures goes { GoesBy (λ x. read_bytes x.0 x.1.now) result (read_bytes reader text.now) }
    ensures shorter { IfOk result (λ x. length x.1.now ≤ length text.now) }
{
    let Reader { place, begun, form } = reader;
    let Place { mode, progress } = place;
    match mode {
        Mode::Less => tag_on(alloc, progress, begun, form, text),
        Mode::Naming(name) => naming_on(progress, begun, form, name, text),
        Mode::Valued(tag, key, quote, value) if b'&' != quote => {
            valued_on(alloc, progress, begun, form, tag, key, quote, value, text)
        }
        Mode::Content(Brackets::Zero) => content_on(alloc, progress, begun, form, text),
        mode => {
            let place = Place { mode, progress };
            Ok((Reader { place, begun, form }, text))
        }
    }
}
