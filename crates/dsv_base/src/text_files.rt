ghost use Rattle.std.specs.Prelude.{◌≡◌, ◌≤◌, ◌∷◌, length, option_copied};
ghost use Rattle.std.specs.List.{list_all};
ghost use Rattle.dsv_base.specs.TextFiles.{is_blank, without_front, without_back, trimmed, without_return, file_lines, lines_left, left_size, is_skipped};

use crate::lines::first_line;

/// A space or a tab.
pub fn is_blank(byte: u8) -> bool
    ensures { result ≡ is_blank byte }
{
    byte == b' ' || byte == b'\t'
}

/// Whether it has spaces and tabs alone.
pub fn is_all_blank(text: &[u8]) -> bool
    ensures { result ≡ list_all is_blank text.now }
{
    text.iter().all(|b| is_blank(*b))
}

/// The text without the spaces and tabs in front.
pub fn without_front(text: &[u8]) -> &[u8]
    ensures { result.now ≡ without_front text.now }
{
    let mut rest = text;
    'front: while let [first, after @ ..] = rest {
        if !is_blank(*first) {
            return rest;
        }
        rest = after;
    }
    rest
}

/// Without the spaces and tabs at the end.
fn without_back(text: &[u8]) -> &[u8]
    ensures { result.now ≡ without_back text.now }
{
    let mut rest = text;
    'back: while let [before @ .., last] = rest {
        if !is_blank(*last) {
            return rest;
        }
        rest = before;
    }
    rest
}

/// The text without the spaces and tabs around it.
pub fn trimmed(text: &[u8]) -> &[u8]
    ensures { result.now ≡ trimmed text.now }
{
    without_back(without_front(text))
}

/// Whether the line, without its end, is skipped: it is blank, or a comment, which begins with
/// `#`.
pub fn is_skipped(line: &[u8]) -> bool
    ensures { result ≡ is_skipped line.now }
{
    if is_all_blank(line) {
        return true;
    }
    match line {
        [b'#', ..] => true,
        _ => false,
    }
}

/// Without a CR at the end.
fn without_return(text: &[u8]) -> &[u8]
    ensures { result.now ≡ without_return text.now }
{
    match text {
        [before @ .., b'\r'] => before,
        _ => text,
    }
}

/// The first line of a text file without its end, a line feed with the CR before it if there is
/// one, and what stands after that, unless it is the last line, which has no line feed.
pub fn next_line(text: &[u8]) -> (&[u8], Option<&[u8]>)
    ensures line { file_lines text.now ≡ result.0.now ∷ lines_left (option_copied result.1) }
    ensures shorter { left_size (option_copied result.1) ≤ length text.now }
{
    match first_line(text) {
        None => (text, None),
        Some((line, after)) => (without_return(line), Some(after)),
    }
}
