ghost use Rattle.std.specs.Prelude.{◌≡◌};
ghost use Rattle.dav_elements.specs.Takes.{Takes};
ghost use Rattle.dav_reading.specs.declared.mode.Mode.TheVariants as modes;
ghost use Rattle.dav_reading.specs.Modes.{one_bracket_more, brackets_with, are_several, read_said, read_closed, read_in};

use crate::asides::between;
use crate::mode::{Aside, Brackets, Mode, Place};
use crate::references::referred;
use crate::starts::is_name_byte;
use dav_elements::{
    Progress, Tag, Unread, begins_name, enter, is_white, leave, pushed, refer, say,
};
use dsv_base::List;
use std::alloc::Global;

fn one_bracket_more(before: Brackets) -> Brackets
    ensures { result ≡ one_bracket_more before }
{
    match before {
        Brackets::Zero => Brackets::One,
        Brackets::One => Brackets::Several,
        Brackets::Several => Brackets::Several,
    }
}

fn brackets_with(before: Brackets, b: u8) -> Brackets
    ensures { result ≡ brackets_with before b }
{
    if b == b']' {
        one_bracket_more(before)
    } else {
        Brackets::Zero
    }
}

fn are_several(before: Brackets) -> bool
    ensures { result ≡ are_several before }
{
    match before {
        Brackets::Zero => false,
        Brackets::One => false,
        Brackets::Several => true,
    }
}

fn read_said(progress: Progress, before: Brackets, b: u8) -> Result<Place, Unread>
    ensures { Takes result (read_said progress before b) }
{
    if b == b'>' && are_several(before) {
        return Err(Unread::Bad);
    }
    let progress = say(progress, b)?;
    Ok(Place {
        mode: Mode::Content(brackets_with(before, b)),
        progress,
    })
}

/// Reads a byte between tags.
pub fn content(alloc: Global, progress: Progress, before: Brackets, b: u8) -> Result<Place, Unread>
    ensures { Takes result (read_in progress (modes.Content before) b) }
{
    if b == b'<' {
        return Ok(Place {
            mode: Mode::Less,
            progress,
        });
    }
    if b == b'&' {
        return Ok(Place {
            mode: Mode::TextRef(List::of(Vec::new(alloc))),
            progress,
        });
    }
    read_said(progress, before, b)
}

/// Reads a byte behind a `&` between tags.
pub fn text_ref(alloc: Global, progress: Progress, word: List<u8>, b: u8) -> Result<Place, Unread>
    ensures { Takes result (read_in progress (modes.TextRef word) b) }
{
    if b == b';' {
        let bytes = referred(alloc, word.get())?;
        let progress = refer(progress, bytes.get())?;
        return Ok(between(progress));
    }
    let word = pushed(word, b)?;
    Ok(Place {
        mode: Mode::TextRef(word),
        progress,
    })
}

/// Reads a byte behind `<`.
pub fn less(alloc: Global, progress: Progress, b: u8) -> Result<Place, Unread>
    ensures { Takes result (read_in progress modes.Less b) }
{
    if begins_name(b) {
        let name = pushed(List::of(Vec::new(alloc)), b)?;
        return Ok(Place {
            mode: Mode::Naming(name),
            progress,
        });
    }
    if b == b'/' {
        return Ok(Place {
            mode: Mode::Closing(List::of(Vec::new(alloc))),
            progress,
        });
    }
    if b == b'!' {
        return Ok(Place {
            mode: Mode::Beside(Aside::Marked(List::of(Vec::new(alloc)))),
            progress,
        });
    }
    if b == b'?' {
        return Ok(Place {
            mode: Mode::Beside(Aside::Processing),
            progress,
        });
    }
    Err(Unread::Bad)
}

/// Reads a byte behind the `/` of an empty element.
pub fn slash(alloc: Global, progress: Progress, tag: Tag, b: u8) -> Result<Place, Unread>
    ensures { Takes result (read_in progress (modes.Slash tag) b) }
{
    if b == b'>' {
        let name = tag.name.copy()?;
        let inside = enter(alloc, progress, tag)?;
        return match leave(alloc, inside, name.get()) {
            Ok(progress) => Ok(Place {
                mode: Mode::Content(Brackets::Zero),
                progress,
            }),
            Err(fault) => Err(fault),
        };
    }
    Err(Unread::Bad)
}

/// Reads a byte in the name of an end tag.
pub fn closing(alloc: Global, progress: Progress, name: List<u8>, b: u8) -> Result<Place, Unread>
    ensures { Takes result (read_in progress (modes.Closing name) b) }
{
    if is_name_byte(b) {
        let name = pushed(name, b)?;
        return Ok(Place {
            mode: Mode::Closing(name),
            progress,
        });
    }
    closed(alloc, progress, name, b)
}

/// Reads a byte behind the name of an end tag.
pub fn closed(alloc: Global, progress: Progress, name: List<u8>, b: u8) -> Result<Place, Unread>
    ensures { Takes result (read_closed progress name b) }
{
    if b == b'>' {
        let progress = leave(alloc, progress, name.get())?;
        return Ok(between(progress));
    }
    if is_white(b) {
        return Ok(Place {
            mode: Mode::Closed(name),
            progress,
        });
    }
    Err(Unread::Bad)
}
