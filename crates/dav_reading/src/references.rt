ghost use Rattle.std.specs.Prelude.{◌≡◌, Some, IfOk};
ghost use Rattle.std.specs.Char.{encode_utf8};
ghost use Rattle.dav_elements.specs.Takes.{Takes};
ghost use Rattle.dav_reading.specs.References.{is_xml_char, decimal_after, hex_value, with_hex, hex_after, some_decimal, some_hex, char_number, char_bytes, char_referred, referred};

use dav_elements::Unread;
use dsv_base::{List, NoMemory};
use std::alloc::Global;

/// The bytes for which a reference stands, by what is between `&` and `;`.
#[tactic(auto, unfolding(crate::specs::References::referred))]
pub fn referred(alloc: Global, word: &[u8]) -> Result<List<u8>, Unread>
    ensures { Takes result (referred word.now) }
{
    if word == b"amp".as_slice() {
        return known(alloc, b"&");
    }
    if word == b"lt".as_slice() {
        return known(alloc, b"<");
    }
    if word == b"gt".as_slice() {
        return known(alloc, b">");
    }
    if word == b"quot".as_slice() {
        return known(alloc, b"\"");
    }
    if word == b"apos".as_slice() {
        return known(alloc, b"'");
    }
    char_referred(alloc, word)
}

fn known(alloc: Global, bytes: &[u8]) -> Result<List<u8>, Unread>
    ensures { Takes result (Some bytes.now) }
{
    let bytes = Vec::from_slice(alloc, bytes)?;
    Ok(List::of(bytes))
}

fn char_referred(alloc: Global, word: &[u8]) -> Result<List<u8>, Unread>
    ensures { Takes result (char_referred word.now) }
{
    match word {
        [] => Err(Unread::Bad),
        [b, digits @ ..] => {
            if *b != b'#' {
                return Err(Unread::Bad);
            }
            match char_number(digits) {
                None => Err(Unread::Bad),
                Some(number) => char_bytes(alloc, number),
            }
        }
    }
}

fn char_number(digits: &[u8]) -> Option<u32>
    ensures { result ≡ char_number digits.now }
{
    match digits {
        [] => None,
        [b, others @ ..] => {
            if *b == b'x' {
                return some_hex(others);
            }
            some_decimal(digits)
        }
    }
}

fn some_decimal(digits: &[u8]) -> Option<u32>
    ensures { result ≡ some_decimal digits.now }
{
    match digits {
        [] => None,
        [_, ..] => decimal(digits),
    }
}

fn decimal(digits: &[u8]) -> Option<u32>
    ensures { result ≡ decimal_after 0 digits.now }
{
    let mut number = 0u32;
    'digits: for b in digits {
        if *b < b'0' {
            return None;
        }
        if *b > b'9' {
            return None;
        }
        if number > 1_114_111 {
            return None;
        }
        number = 10 * number + (*b - b'0') as u32;
    }
    Some(number)
}

fn some_hex(digits: &[u8]) -> Option<u32>
    ensures { result ≡ some_hex digits.now }
{
    match digits {
        [] => None,
        [_, ..] => hexadecimal(digits),
    }
}

fn hexadecimal(digits: &[u8]) -> Option<u32>
    ensures { result ≡ hex_after 0 digits.now }
{
    let mut number = 0u32;
    'digits: for b in digits {
        match with_hex(number, hex_value(*b)) {
            Some(next) => number = next,
            None => return None,
        }
    }
    Some(number)
}

fn hex_value(b: u8) -> Option<u8>
    ensures { result ≡ hex_value b }
{
    if b >= b'0' && b <= b'9' {
        return Some(b - b'0');
    }
    if b >= b'A' && b <= b'F' {
        return Some(b - 55);
    }
    if b >= b'a' && b <= b'f' {
        return Some(b - 87);
    }
    None
}

fn with_hex(number: u32, digit: Option<u8>) -> Option<u32>
    ensures { result ≡ with_hex number digit }
{
    match digit {
        None => None,
        Some(digit) => {
            if number > 1_114_111 {
                return None;
            }
            Some(16 * number + digit as u32)
        }
    }
}

fn is_xml_char(n: u32) -> bool
    ensures { result ≡ is_xml_char n }
{
    n == 9
        || n == 10
        || n == 13
        || (n >= 32 && n <= 55295)
        || (n >= 57344 && n <= 65533)
        || (n >= 65536 && n <= 1_114_111)
}

#[tactic(auto, unfolding(crate::specs::References::char_bytes))]
fn char_bytes(alloc: Global, number: u32) -> Result<List<u8>, Unread>
    ensures { Takes result (char_bytes number) }
{
    if !is_xml_char(number) {
        return Err(Unread::Bad);
    }
    match char::from_u32(number) {
        None => Err(Unread::Bad),
        Some(c) => {
            let bytes = utf8_bytes(alloc, c)?;
            Ok(bytes)
        }
    }
}

fn utf8_bytes(alloc: Global, c: char) -> Result<List<u8>, NoMemory>
    ensures { IfOk result (λ bytes. bytes ≡ encode_utf8 c) }
{
    let mut text = String::new(alloc);
    text.push(c)?;
    Ok(List::of(text.into_bytes()))
}
