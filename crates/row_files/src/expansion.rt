use crate::answer::Answer;
use crate::book::Book;
use anyhow::{Result, bail};
use std::alloc::Global;

/// The bytes of a text as rows write it: `\r`, `\n`, `\t`, `\\` and `\xHH` are one byte each, `\e` is
/// nothing, `\{NAME}` is a named text, and `\*N{TEXT}` is TEXT so many times, where `\#` is the number of
/// the time, from 1.
pub fn expand(alloc: Global, book: &Book, text: &str) -> Result<Vec<u8>> {
    let mut out = Answer::new(alloc);
    put_text(alloc, book, text, &mut out);
    match out.end() {
        Some(bytes) => Ok(bytes),
        None => bail!(
            "an escape that is none, a text that doesn't stand above, or no memory: {text}"
        ),
    }
}

fn put_text(alloc: Global, book: &Book, text: &str, out: &mut Answer) {
    let mut rest = text;
    'escapes: for _ in 0..text.len() {
        let Some((front, after)) = rest.split_once('\\') else {
            break;
        };
        out.put(front.as_bytes());
        rest = put_escape(alloc, book, after, out);
    }
    out.put(rest.as_bytes());
}

/// Writes what stands behind a backslash, and gives what stands after that.
fn put_escape<'a>(alloc: Global, book: &Book, after: &'a str, out: &mut Answer) -> &'a str {
    if let Some(named) = after.strip_prefix('{') {
        return put_named(book, named, out);
    }
    if let Some(repeat) = after.strip_prefix('*') {
        return put_repeat(alloc, repeat, out);
    }
    put_byte(after, out)
}

fn put_named<'a>(book: &Book, after: &'a str, out: &mut Answer) -> &'a str {
    let Some((name, rest)) = after.split_once('}') else {
        out.give_up();
        return "";
    };
    match book.find(name) {
        Some(bytes) => out.put(bytes),
        None => out.give_up(),
    }
    rest
}

fn put_repeat<'a>(alloc: Global, after: &'a str, out: &mut Answer) -> &'a str {
    let (count, behind) = after.split_once('{').unwrap_or(("", after));
    let Some((body, rest)) = behind.split_once('}') else {
        out.give_up();
        return "";
    };
    match count.parse::<u32>() {
        Ok(count) if body.contains("\\#") => put_numbers(count, body, out),
        Ok(count) => put_times(alloc, count, body, out),
        Err(_) => out.give_up(),
    }
    rest
}

fn put_numbers(count: u32, body: &str, out: &mut Answer) {
    'numbers: for number in 1..=count {
        put_numbered(body, number, out);
    }
}

fn put_times(alloc: Global, count: u32, body: &str, out: &mut Answer) {
    let mut once = Answer::new(alloc);
    put_numbered(body, 0, &mut once);
    match once.end() {
        Some(once) => put_copies(count, once.as_slice(), out),
        None => out.give_up(),
    }
}

fn put_copies(count: u32, once: &[u8], out: &mut Answer) {
    'times: for _ in 0..count {
        out.put(once);
    }
}

/// Writes what is repeated, for the time of this number.
fn put_numbered(body: &str, number: u32, out: &mut Answer) {
    let mut rest = body;
    'escapes: for _ in 0..body.len() {
        let Some((front, after)) = rest.split_once('\\') else {
            break;
        };
        out.put(front.as_bytes());
        rest = put_number_or_byte(number, after, out);
    }
    out.put(rest.as_bytes());
}

fn put_number_or_byte<'a>(number: u32, after: &'a str, out: &mut Answer) -> &'a str {
    match after.strip_prefix('#') {
        Some(behind) => {
            out.put_number(u64::from(number));
            behind
        }
        None => put_byte(after, out),
    }
}

/// Writes the byte of an escape of one letter, or of `xHH`.
fn put_byte<'a>(after: &'a str, out: &mut Answer) -> &'a str {
    let mut letters = after.chars();
    match letters.next() {
        Some('r') => out.put(b"\r"),
        Some('n') => out.put(b"\n"),
        Some('t') => out.put(b"\t"),
        Some('\\') => out.put(b"\\"),
        Some('e') => {}
        Some('x') => put_digits(digit(letters.next()), digit(letters.next()), out),
        _ => out.give_up(),
    }
    letters.as_str()
}

fn put_digits(high: Option<u8>, low: Option<u8>, out: &mut Answer) {
    match (high, low) {
        (Some(high), Some(low)) => out.put(&[high.wrapping_mul(16).wrapping_add(low)]),
        _ => out.give_up(),
    }
}

fn digit(letter: Option<char>) -> Option<u8> {
    let digit = letter?.to_digit(16)?;
    u8::try_from(digit).ok()
}
