ghost use Rattle.std.specs.Prelude.{◌≡◌, ◌≤◌, ◌++◌, false, IfOk, OnOk, length, option_copied, option_to_list};
ghost use Rattle.dsv_base.specs.TextFiles.{file_lines, lines_left};
ghost use Rattle.authz_file.specs.Lines.{is_indented, begins_section, continued, line_before, opens, joined_lines};

use crate::joined_line::JoinedLine;
use dsv_base::{Bytes, NoMemory, is_skipped, next_line, without_front};
use std::alloc::Global;

/// Whether it begins with a blank.
fn is_indented(line: &[u8]) -> bool
    ensures { result ≡ is_indented line.now }
{
    match line {
        [b' ' | b'\t', ..] => true,
        _ => false,
    }
}

/// Whether it begins with `[`.
fn begins_section(line: &[u8]) -> bool
    ensures { result ≡ begins_section line.now }
{
    match line {
        [b'[', ..] => true,
        _ => false,
    }
}

/// The line together with those that continue it.
#[tactic(auto, unfolding(crate::specs::Lines::continued))]
fn with_continued(alloc: Global, line: &[u8], after: Option<&[u8]>) -> Result<Bytes, NoMemory>
    ensures { IfOk result (λ text. text ≡ line.now ++ continued (lines_left (option_copied after.entry))) }
{
    let mut text = Vec::from_slice(alloc, line)?;
    let mut rest = after;
    'more: while let Some(left) = rest {
        let (next, after_next) = next_line(left);
        rest = after_next;
        if is_skipped(next) {
            continue;
        }
        if !is_indented(next) {
            return Ok(Bytes::from_vec(text));
        }
        text.push(b' ')?;
        text.extend_from_slice(without_front(next))?;
    }
    Ok(Bytes::from_vec(text))
}

/// What the line is, unless it is skipped or continues another, which it may where one is `begun`.
fn line_gives(
    alloc: Global,
    begun: bool,
    number: u32,
    line: &[u8],
    after: Option<&[u8]>,
) -> Result<Option<JoinedLine>, NoMemory>
    ensures { IfOk result (λ given. option_to_list given
        ≡ line_before begun number line.now (option_copied after.entry)) }
{
    if is_skipped(line) {
        return Ok(None);
    }
    if is_indented(line) {
        if begun {
            return Ok(None);
        }
        return Ok(Some(JoinedLine::Stray { number }));
    }
    if begins_section(line) {
        let text = Bytes::of(alloc, line)?;
        return Ok(Some(JoinedLine::Head { number, text }));
    }
    let text = with_continued(alloc, line, after)?;
    Ok(Some(JoinedLine::Body { number, text }))
}

/// Whether the line after this one may continue one.
fn opens(begun: bool, line: &[u8]) -> bool
    ensures { result ≡ opens begun line.now }
{
    if is_skipped(line) {
        return begun;
    }
    if is_indented(line) {
        return begun;
    }
    !begins_section(line)
}

fn push_line(lines: &mut Vec<JoinedLine>, given: Option<JoinedLine>) -> Result<(), NoMemory>
    ensures { OnOk result (lines.new.items ≡ lines.old.items ++ option_to_list given) }
{
    match given {
        None => Ok(()),
        Some(line) => {
            lines.push(line)?;
            Ok(())
        }
    }
}

/// The lines of the file that aren't skipped, each with those that continue it. The one error is
/// want of memory.
#[tactic(auto, unfolding(crate::specs::Lines::joined_lines))]
pub(crate) fn joined_lines(alloc: Global, bytes: &[u8]) -> Result<Vec<JoinedLine>, NoMemory>
    requires { length bytes.now ≤ 268435456 }
    ensures { IfOk result (λ lines. lines.items ≡ joined_lines false 1 (file_lines bytes.now)) }
{
    let mut lines = Vec::new(alloc);
    let mut begun = false;
    let mut number = 1u32;
    let mut rest = Some(bytes);
    'lines: while let Some(text) = rest {
        let (line, after) = next_line(text);
        let given = line_gives(alloc, begun, number, line, after)?;
        push_line(&mut lines, given)?;
        begun = opens(begun, line);
        number += 1;
        rest = after;
    }
    Ok(lines)
}
