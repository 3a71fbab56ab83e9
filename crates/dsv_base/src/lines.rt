ghost use Rattle.std.specs.Prelude.{◌≡◌, ◌+◌, ◌<◌, ◌∷◌, ◌==◌, [], None, Some, false, length, MatchOption, IfOk, IfSome, IfNone, All, take, slice_index};
ghost use Rattle.dsv_base.specs.Lines.{lines_of, cut_at, cut_line};

use crate::bytes::Bytes;
use crate::no_memory::NoMemory;

/// Where the byte stands first.
fn place_of(text: &[u8], byte: u8) -> Option<usize>
    ensures none { IfNone result (All (λ b. (b == byte) ≡ false) text.now) }
    ensures within { IfSome result (λ at. at < length text.now) }
    ensures at { IfSome result (λ at. slice_index text.now at ≡ byte) }
    ensures before { IfSome result (λ at. All (λ b. (b == byte) ≡ false) (take at text.now)) }
{
    text.iter().position(|b| *b == byte)
}

/// What stands before the first such byte, and what stands after it; `None` where it stands
/// nowhere.
pub fn cut_at(text: &[u8], byte: u8) -> Option<(&[u8], &[u8])>
    ensures cut { MatchOption result (cut_at byte text.now ≡ None)
        (λ x. cut_at byte text.now ≡ Some (x.0.now, x.1.now)) }
    ensures shorter { IfSome result (λ x. length x.0.now + length x.1.now + 1 ≡ length text.now) }
{
    match place_of(text, byte) {
        None => None,
        Some(at) => Some((&text[..at], &text[at + 1..])),
    }
}

/// The same two parts, held together with the text. Its one error is want of memory.
pub fn cut_bytes(text: &Bytes, byte: u8) -> Result<Option<(Bytes, Bytes)>, NoMemory>
    ensures cut { IfOk result (λ cut. cut ≡ cut_at byte text.now) }
    ensures shorter { IfOk result (λ cut. IfSome cut (λ x. length x.1 < length text.now)) }
{
    match place_of(text.get(), byte) {
        None => Ok(None),
        Some(at) => Ok(Some((text.part(0, at)?, text.after(at + 1)?))),
    }
}

/// The first line without its line feed, and what stands after that; `None` where there is no
/// line feed, so that the whole text is one line that isn't ended.
pub fn first_line(text: &[u8]) -> Option<(&[u8], &[u8])>
    ensures first { MatchOption result (cut_line text.now ≡ None)
        (λ x. cut_line text.now ≡ Some (x.0.now, x.1.now)) }
    ensures cut { MatchOption result (lines_of text.now ≡ text.now ∷ [])
        (λ x. lines_of text.now ≡ x.0.now ∷ lines_of x.1.now) }
    ensures shorter { IfSome result (λ x. length x.0.now + length x.1.now + 1 ≡ length text.now) }
{
    match cut_at(text, b'\n') {
        None => None,
        Some((line, rest)) => Some((line, rest)),
    }
}
