ghost use Rattle.std.specs.Prelude.{◌≡◌, option_copied};
ghost use Rattle.std.specs.List.{list_all};
ghost use Rattle.dsv_base.specs.Numbers.{is_digit};
ghost use Rattle.http_front.specs.Framings.{framing, single, is_number, length_framing, coding_framing};

use crate::field_fault::FieldFault;
use crate::fields::{field_named, has_field};
use crate::framing::Framing;
use dsv_base::{Field, read_digits};

/// The most bytes that a body may have.
pub(crate) const MOST_BODY_BYTES: usize = 16_777_216;

/// The most digits that a Content-Length may have.
const MOST_LENGTH_DIGITS: usize = 20;

/// How the fields say the length of the body.
#[tactic(auto, unfolding(crate::specs::Framings::framing))]
pub(crate) fn framing(fields: &[Field]) -> Framing
    ensures { result ≡ framing fields.now }
{
    let is_sized = has_field(fields, b"content-length");
    if has_field(fields, b"transfer-encoding") {
        if is_sized {
            return Framing::Unframed;
        }
        return match single(fields, b"transfer-encoding") {
            None => Framing::Unframed,
            Some(value) => coding_framing(value),
        };
    }
    if !is_sized {
        return Framing::Sized(0);
    }
    match single(fields, b"content-length") {
        None => Framing::Unframed,
        Some(value) => length_framing(value),
    }
}

/// The value of the field of this name, where there is exactly one.
fn single<'a>(fields: &'a [Field], name: &[u8]) -> Option<&'a [u8]>
    ensures { option_copied result ≡ single name.now fields.now }
{
    match field_named(fields, name) {
        Ok(value) => value,
        Err(FieldFault::Doubled) => None,
    }
}

#[tactic(auto, unfolding(crate::specs::Framings::coding_framing))]
fn coding_framing(value: &[u8]) -> Framing
    ensures { result ≡ coding_framing value.now }
{
    if value.eq_ignore_ascii_case(b"chunked") {
        Framing::Chunked
    } else {
        Framing::Unframed
    }
}

#[tactic(auto, unfolding(crate::specs::Framings::length_framing))]
fn length_framing(value: &[u8]) -> Framing
    ensures { result ≡ length_framing value.now }
{
    if !is_number(value) {
        return Framing::Unframed;
    }
    if value.len() > MOST_LENGTH_DIGITS {
        return Framing::TooLong;
    }
    match read_digits(value, MOST_BODY_BYTES as u64) {
        Some(n) => Framing::Sized(n as usize),
        None => Framing::TooLong,
    }
}

fn is_number(value: &[u8]) -> bool
    ensures { result ≡ is_number value.now }
{
    if value.is_empty() {
        return false;
    }
    are_digits(value)
}

fn are_digits(value: &[u8]) -> bool
    ensures { result ≡ list_all is_digit value.now }
{
    value.iter().all(|b| *b >= b'0' && *b <= b'9')
}
