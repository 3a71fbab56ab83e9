ghost use Rattle.std.specs.Prelude.{◌≡◌, ◌++◌, ◌∷◌, ℕ, List, IfOk};
ghost use Rattle.dav_reading.specs.LineEnds.{ends_joined, lines_joined, blanked};

use dsv_base::NoMemory;
use std::alloc::Global;

/// A byte of an attribute's value: tab and LF become a blank.
pub fn blanked(b: u8) -> u8
    ensures { result ≡ blanked b }
{
    if b == b'\t' || b == b'\n' { b' ' } else { b }
}

/// Adds a byte, and answers whether it is a CR, behind which an LF is left out.
fn put(out: &mut Vec<u8>, after: bool, b: u8) -> Result<bool, NoMemory>
    ensures { IfOk result (λ next. (rest : List ℕ) → out.new.items ++ ends_joined next rest ≡ out.old.items ++ ends_joined after (b ∷ rest)) }
{
    if b == b'\r' {
        out.push(b'\n')?;
        return Ok(true);
    }
    if after && b == b'\n' {
        return Ok(false);
    }
    out.push(b)?;
    Ok(false)
}

/// The text with CRLF and CR as LF. Its one error is want of memory.
pub fn lines_joined(alloc: Global, text: &[u8]) -> Result<Vec<u8>, NoMemory>
    ensures { IfOk result (λ out. out.items ≡ lines_joined text.now) }
{
    let mut out = Vec::new(alloc);
    let mut after = false;
    'bytes: for b in text {
        after = put(&mut out, after, *b)?;
    }
    Ok(out)
}
