ghost use Rattle.std.specs.Prelude.{◌≡◌, Some};
ghost use Rattle.dav_elements.specs.Takes.{Takes};
ghost use Rattle.dav_reading.specs.declared.mode.Aside.TheVariants as aside_modes;
ghost use Rattle.dav_reading.specs.declared.mode.Mode.TheVariants.{Beside};
ghost use Rattle.dav_reading.specs.Asides.{now_between, may_mark, read_mark, read_type, read_aside};

use crate::mode::{Aside, Brackets, Mode, Place};
use dav_elements::{Progress, Unread, declare, pushed, refer, say};
use dsv_base::List;

fn beside(aside: Aside, progress: Progress) -> Place
    ensures { result ≡ record { mode = Beside aside; progress = progress } }
{
    Place {
        mode: Mode::Beside(aside),
        progress,
    }
}

/// The place between tags, with no `]` just before.
pub fn between(progress: Progress) -> Place
    ensures { now_between progress ≡ Some result }
{
    Place {
        mode: Mode::Content(Brackets::Zero),
        progress,
    }
}

fn may_mark(word: &[u8]) -> bool
    ensures { result ≡ may_mark word.now }
{
    b"--".starts_with(word) || b"[CDATA[".starts_with(word) || b"DOCTYPE".starts_with(word)
}

fn read_mark(progress: Progress, word: List<u8>) -> Result<Place, Unread>
    ensures { Takes result (read_mark progress word) }
{
    if word.get() == b"--".as_slice() {
        return Ok(beside(Aside::Comment, progress));
    }
    if word.get() == b"[CDATA[".as_slice() {
        let progress = refer(progress, b"")?;
        return Ok(beside(Aside::Data, progress));
    }
    if word.get() == b"DOCTYPE".as_slice() {
        return Ok(beside(Aside::Typing(0), progress));
    }
    if may_mark(word.get()) {
        return Ok(beside(Aside::Marked(word), progress));
    }
    Err(Unread::Bad)
}

fn read_type(progress: Progress, inside: u64, b: u8) -> Result<Place, Unread>
    ensures { Takes result (read_type progress inside b) }
{
    if b == b'"' || b == b'\'' {
        return Ok(beside(Aside::Quoted(inside, b), progress));
    }
    if b == b'[' {
        return deeper(progress, inside);
    }
    if b == b']' {
        return Ok(beside(Aside::Typing(inside.saturating_sub(1)), progress));
    }
    if b == b'>' && inside == 0 {
        let progress = declare(progress)?;
        return Ok(between(progress));
    }
    Ok(beside(Aside::Typing(inside), progress))
}

/// One square bracket more. There is no memory for a text with more of them than a number tells.
fn deeper(progress: Progress, inside: u64) -> Result<Place, Unread>
    ensures { Takes result (read_type progress inside 91) }
{
    match inside.checked_add(1) {
        Some(inside) => Ok(beside(Aside::Typing(inside), progress)),
        None => Err(Unread::NoMemory),
    }
}

fn data(progress: Progress, b: u8) -> Result<Place, Unread>
    ensures { Takes result (read_aside progress aside_modes.Data b) }
{
    if b == b']' {
        return Ok(beside(Aside::DataBracket, progress));
    }
    let progress = say(progress, b)?;
    Ok(beside(Aside::Data, progress))
}

fn data_bracket(progress: Progress, b: u8) -> Result<Place, Unread>
    ensures { Takes result (read_aside progress aside_modes.DataBracket b) }
{
    if b == b']' {
        return Ok(beside(Aside::DataEnd, progress));
    }
    let progress = refer(progress, &[b']', b])?;
    Ok(beside(Aside::Data, progress))
}

fn data_end(progress: Progress, b: u8) -> Result<Place, Unread>
    ensures { Takes result (read_aside progress aside_modes.DataEnd b) }
{
    if b == b'>' {
        return Ok(between(progress));
    }
    if b == b']' {
        let progress = refer(progress, b"]")?;
        return Ok(beside(Aside::DataEnd, progress));
    }
    let progress = refer(progress, &[b']', b']', b])?;
    Ok(beside(Aside::Data, progress))
}

fn comment(progress: Progress, b: u8) -> Place
    ensures { read_aside progress aside_modes.Comment b ≡ Some result }
{
    if b == b'-' {
        return beside(Aside::CommentDash, progress);
    }
    beside(Aside::Comment, progress)
}

fn comment_dash(progress: Progress, b: u8) -> Place
    ensures { read_aside progress aside_modes.CommentDash b ≡ Some result }
{
    if b == b'-' {
        return beside(Aside::CommentEnd, progress);
    }
    beside(Aside::Comment, progress)
}

fn comment_end(progress: Progress, b: u8) -> Result<Place, Unread>
    ensures { Takes result (read_aside progress aside_modes.CommentEnd b) }
{
    if b == b'>' {
        return Ok(between(progress));
    }
    Err(Unread::Bad)
}

fn quoted_type(progress: Progress, inside: u64, quote: u8, b: u8) -> Place
    ensures { read_aside progress (aside_modes.Quoted inside quote) b ≡ Some result }
{
    if b == quote {
        return beside(Aside::Typing(inside), progress);
    }
    beside(Aside::Quoted(inside, quote), progress)
}

fn processing(progress: Progress, b: u8) -> Place
    ensures { read_aside progress aside_modes.Processing b ≡ Some result }
{
    if b == b'?' {
        return beside(Aside::ProcessingEnd, progress);
    }
    beside(Aside::Processing, progress)
}

fn processing_end(progress: Progress, b: u8) -> Place
    ensures { read_aside progress aside_modes.ProcessingEnd b ≡ Some result }
{
    if b == b'>' {
        return between(progress);
    }
    if b == b'?' {
        return beside(Aside::ProcessingEnd, progress);
    }
    beside(Aside::Processing, progress)
}

/// Reads a byte of what stands between tags beside text.
pub fn read_aside(progress: Progress, aside: Aside, b: u8) -> Result<Place, Unread>
    ensures { Takes result (read_aside progress aside b) }
{
    match aside {
        Aside::Marked(word) => {
            let word = pushed(word, b)?;
            read_mark(progress, word)
        }
        Aside::Comment => Ok(comment(progress, b)),
        Aside::CommentDash => Ok(comment_dash(progress, b)),
        Aside::CommentEnd => comment_end(progress, b),
        Aside::Data => data(progress, b),
        Aside::DataBracket => data_bracket(progress, b),
        Aside::DataEnd => data_end(progress, b),
        Aside::Typing(inside) => read_type(progress, inside, b),
        Aside::Quoted(inside, quote) => Ok(quoted_type(progress, inside, quote, b)),
        Aside::Processing => Ok(processing(progress, b)),
        Aside::ProcessingEnd => Ok(processing_end(progress, b)),
    }
}
