ghost use Rattle.std.specs.Prelude.{◌≡◌};
ghost use Rattle.std.specs.List.{list_any, slice_split};
ghost use Rattle.dsv_base.specs.TextFiles.{is_comma};
ghost use Rattle.http_front.specs.Connections.{is_close, is_last, says_close};

use crate::fields::is_named;
use dsv_base::{Field, trimmed};

/// Whether the connection ends after a request of HTTP/1.`minor` with these fields (RFC 9112,
/// section 9.3).
#[tactic(auto, unfolding(crate::specs::Connections::is_last))]
pub(crate) fn is_last(minor: u8, fields: &[Field]) -> bool
    ensures { result ≡ is_last minor fields.now }
{
    if minor == 0 {
        return true;
    }
    has_any_close(fields)
}

fn has_any_close(fields: &[Field]) -> bool
    ensures { result ≡ list_any says_close fields.now }
{
    fields.iter().any(|field| says_close(field))
}

fn says_close(field: &Field) -> bool
    ensures { result ≡ says_close field.now }
{
    is_named(field, b"connection") && has_close(field.value.get())
}

/// Whether `close` is among the words of a Connection field's value.
fn has_close(value: &[u8]) -> bool
    ensures { result ≡ list_any is_close (slice_split is_comma value.now) }
{
    value.split(|b| *b == b',').any(|word| is_close(word))
}

fn is_close(word: &[u8]) -> bool
    ensures { result ≡ is_close word.now }
{
    trimmed(word).eq_ignore_ascii_case(b"close")
}
