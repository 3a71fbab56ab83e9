ghost use Rattle.std.specs.Prelude.{◌≡◌, IfOk, length, ◌≤◌};
ghost use Rattle.dav_reading.specs.Runs.{goes, put, run_left};

use crate::line_ends::blanked;
use crate::starts::is_name_byte;
use dsv_base::NoMemory;

/// What is read by runs, many bytes in one step.
#[derive(Clone, Copy, Debug, PartialEq, Eq)]
pub enum Run {
    /// A name.
    Name,
    /// The text between tags.
    Text,
    /// A value, which this quote ends.
    Value(u8),
    /// What stands between `&` and `;`.
    Reference,
}

fn goes(run: Run, b: u8) -> bool
    ensures { result ≡ goes run b }
{
    match run {
        Run::Name => is_name_byte(b),
        Run::Text => b != b'<' && b != b'&' && b != b']',
        Run::Value(quote) => b != quote && b != b'<' && b != b'&',
        Run::Reference => b != b';',
    }
}

fn put(run: Run, b: u8) -> u8
    ensures { result ≡ put run b }
{
    match run {
        Run::Name => b,
        Run::Text => b,
        Run::Value(_) => blanked(b),
        Run::Reference => b,
    }
}

/// What was read before with the run in front of the text, and what stands behind the run. Its one
/// error is want of memory.
pub fn run_left(run: Run, read: Vec<u8>, text: &[u8]) -> Result<(Vec<u8>, &[u8]), NoMemory>
    ensures left { IfOk result (λ x. (x.0.items, x.1.now) ≡ run_left run read.items text.now) }
    ensures shorter { IfOk result (λ x. length x.1.now ≤ length text.now) }
{
    let mut read = read;
    let mut rest = text;
    'bytes: while let [b, behind @ ..] = rest {
        if !goes(run, *b) {
            return Ok((read, rest));
        }
        read.push(put(run, *b))?;
        rest = behind;
    }
    Ok((read, rest))
}
