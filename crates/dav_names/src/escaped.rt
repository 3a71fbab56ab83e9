ghost use Rattle.std.specs.Prelude.{◌≡◌, IfOk, Some, None, MatchOption};
ghost use Rattle.dav_names.specs.Escaped.{begins_escape_but_slash, is_escaped, unescaped};

use dsv_base::NoMemory;
use percent_encoding::percent_decode;
use std::alloc::Global;

/// The text with its escapes read; `None` where a `%` begins none, or one of `/`. Its one error is
/// want of memory.
#[tactic(auto, unfolding(crate::specs::Escaped::unescaped))]
pub fn unescaped(alloc: Global, text: &[u8]) -> Result<Option<Vec<u8>>, NoMemory>
    ensures { IfOk result (λ found. MatchOption found (unescaped text.now ≡ None)
        (λ bytes. unescaped text.now ≡ Some bytes.items)) }
{
    if !is_escaped(text) {
        return Ok(None);
    }
    let mut bytes = Vec::new(alloc);
    percent_decode(text).append_to(&mut bytes)?;
    Ok(Some(bytes))
}

/// Whether each `%` begins an escape of another byte than `/`.
fn is_escaped(text: &[u8]) -> bool
    ensures { result ≡ is_escaped text.now }
{
    let mut rest = text;
    'bytes: while let [byte, after @ ..] = rest {
        if *byte == b'%' && !begins_escape_but_slash(after) {
            return false;
        }
        rest = after;
    }
    true
}

/// Whether what stands behind a `%` begins with two hexadecimal digits, which aren't those of `/`.
fn begins_escape_but_slash(text: &[u8]) -> bool
    ensures { result ≡ begins_escape_but_slash text.now }
{
    match text {
        [high, low, ..] => {
            high.is_ascii_hexdigit()
                && low.is_ascii_hexdigit()
                && !(*high == b'2' && (*low == b'F' || *low == b'f'))
        }
        _ => false,
    }
}
