ghost use Rattle.std.specs.Prelude.{◌≡◌, drop};
ghost use Rattle.dav_elements.specs.Takes.{TakesBy};
ghost use Rattle.dav_reading.specs.Heads.{behind_mark, after_white, begins_white, after_word, quoted, after_name_stated, value_stated, stated, names_next, after_version, after_encoding, after_standalone, after_declaration, begins_declaration, after_head};

use dav_elements::{Unread, is_white};
use dsv_base::cut_at;

/// The text behind its first `at` bytes.
fn dropped(text: &[u8], at: usize) -> &[u8]
    ensures { result.now ≡ drop at text.now }
{
    if at < text.len() {
        return &text[at..];
    }
    &text[text.len()..]
}

/// The text behind a byte order mark, if it has one.
#[tactic(auto, unfolding(crate::specs::Heads::behind_mark))]
pub fn behind_mark(text: &[u8]) -> &[u8]
    ensures { result.now ≡ behind_mark text.now }
{
    if text.starts_with(&[0xef, 0xbb, 0xbf]) {
        return dropped(text, 3);
    }
    text
}

fn after_white(text: &[u8]) -> &[u8]
    ensures { result.now ≡ after_white text.now }
{
    let mut rest = text;
    'white: while let [b, behind @ ..] = rest {
        if !is_white(*b) {
            return rest;
        }
        rest = behind;
    }
    rest
}

fn begins_white(text: &[u8]) -> bool
    ensures { result ≡ begins_white text.now }
{
    match text {
        [] => false,
        [b, ..] => is_white(*b),
    }
}

#[tactic(auto, unfolding(crate::specs::Heads::after_word))]
fn after_word<'a>(word: &[u8], text: &'a [u8]) -> Result<&'a [u8], Unread>
    ensures { TakesBy (λ rest. rest.now) result (after_word word.now text.now) }
{
    if !text.starts_with(word) {
        return Err(Unread::Bad);
    }
    Ok(dropped(text, word.len()))
}

#[tactic(auto, unfolding(crate::specs::Heads::quoted))]
fn quoted(text: &[u8]) -> Result<(&[u8], &[u8]), Unread>
    ensures { TakesBy (λ x. (x.0.now, x.1.now)) result (quoted text.now) }
{
    match text {
        [] => Err(Unread::Bad),
        [b, rest @ ..] => {
            if *b != b'"' && *b != b'\'' {
                return Err(Unread::Bad);
            }
            match cut_at(rest, *b) {
                None => Err(Unread::Bad),
                Some((value, behind)) => Ok((value, behind)),
            }
        }
    }
}

#[tactic(auto, unfolding(crate::specs::Heads::after_name_stated))]
fn after_name_stated<'a>(name: &[u8], text: &'a [u8]) -> Result<&'a [u8], Unread>
    ensures { TakesBy (λ rest. rest.now) result (after_name_stated name.now text.now) }
{
    if !begins_white(text) {
        return Err(Unread::Bad);
    }
    after_word(name, after_white(text))
}

#[tactic(auto, unfolding(crate::specs::Heads::value_stated))]
fn value_stated(text: &[u8]) -> Result<(&[u8], &[u8]), Unread>
    ensures { TakesBy (λ x. (x.0.now, x.1.now)) result (value_stated text.now) }
{
    let behind = after_word(b"=", after_white(text))?;
    quoted(after_white(behind))
}

#[tactic(auto, unfolding(crate::specs::Heads::stated))]
fn stated<'a>(name: &[u8], text: &'a [u8]) -> Result<(&'a [u8], &'a [u8]), Unread>
    ensures { TakesBy (λ x. (x.0.now, x.1.now)) result (stated name.now text.now) }
{
    let behind = after_name_stated(name, text)?;
    value_stated(behind)
}

#[tactic(auto, unfolding(crate::specs::Heads::names_next))]
fn names_next(name: &[u8], text: &[u8]) -> bool
    ensures { result ≡ names_next name.now text.now }
{
    after_white(text).starts_with(name)
}

#[tactic(auto, unfolding(crate::specs::Heads::after_version))]
fn after_version(text: &[u8]) -> Result<&[u8], Unread>
    ensures { TakesBy (λ rest. rest.now) result (after_version text.now) }
{
    let (value, rest) = stated(b"version", text)?;
    if value != b"1.0".as_slice() {
        return Err(Unread::Bad);
    }
    Ok(rest)
}

#[tactic(auto, unfolding(crate::specs::Heads::after_encoding))]
fn after_encoding(text: &[u8]) -> Result<&[u8], Unread>
    ensures { TakesBy (λ rest. rest.now) result (after_encoding text.now) }
{
    if !names_next(b"encoding", text) {
        return Ok(text);
    }
    let (value, rest) = stated(b"encoding", text)?;
    if !value.eq_ignore_ascii_case(b"utf-8") {
        return Err(Unread::Bad);
    }
    Ok(rest)
}

#[tactic(auto, unfolding(crate::specs::Heads::after_standalone))]
fn after_standalone(text: &[u8]) -> Result<&[u8], Unread>
    ensures { TakesBy (λ rest. rest.now) result (after_standalone text.now) }
{
    if !names_next(b"standalone", text) {
        return Ok(text);
    }
    let (value, rest) = stated(b"standalone", text)?;
    if value != b"yes".as_slice() && value != b"no".as_slice() {
        return Err(Unread::Bad);
    }
    Ok(rest)
}

#[tactic(auto, unfolding(crate::specs::Heads::after_declaration))]
fn after_declaration(text: &[u8]) -> Result<&[u8], Unread>
    ensures { TakesBy (λ rest. rest.now) result (after_declaration text.now) }
{
    let rest = after_version(text)?;
    let rest = after_encoding(rest)?;
    let rest = after_standalone(rest)?;
    after_word(b"?>", after_white(rest))
}

#[tactic(auto, unfolding(crate::specs::Heads::begins_declaration))]
fn begins_declaration(text: &[u8]) -> bool
    ensures { result ≡ begins_declaration text.now }
{
    text.starts_with(b"<?xml") && begins_white(dropped(text, 5))
}

/// The text behind its declaration, if it has one; bad where what begins as one isn't one.
#[tactic(auto, unfolding(crate::specs::Heads::after_head))]
pub fn after_head(text: &[u8]) -> Result<&[u8], Unread>
    ensures { TakesBy (λ rest. rest.now) result (after_head text.now) }
{
    if !begins_declaration(text) {
        return Ok(text);
    }
    after_declaration(dropped(text, 5))
}
