ghost use Rattle.std.specs.Prelude.{◌≡◌, ◌++◌, IfOk};
ghost use Rattle.dav_documents.specs.Plain.{is_written_name_byte};
ghost use Rattle.dav_elements.specs.Takes.{Takes};
ghost use Rattle.dav_reading.specs.declared.mode.Mode.TheVariants as modes;
ghost use Rattle.dav_reading.specs.Modes.{read_behind, read_keyed, with_raw, read_in};

use crate::asides::between;
use crate::line_ends::blanked;
use crate::mode::{Mode, Place};
use crate::references::referred;
use dav_elements::{Progress, Raw, Tag, Unread, begins_name, enter, is_white, pushed};
use dsv_base::{Bytes, List, NoMemory};
use std::alloc::Global;

/// Whether it is a byte of a name behind the first.
pub fn is_name_byte(b: u8) -> bool
    ensures { result ≡ is_written_name_byte b }
{
    begins_name(b) || b.is_ascii_digit() || b == b'-' || b == b'.' || b == b':'
}

/// Reads a byte behind a tag's name or an attribute.
pub fn read_behind(alloc: Global, progress: Progress, tag: Tag, b: u8) -> Result<Place, Unread>
    ensures { Takes result (read_behind progress tag b) }
{
    if b == b'>' {
        let progress = enter(alloc, progress, tag)?;
        return Ok(between(progress));
    }
    if b == b'/' {
        return Ok(Place {
            mode: Mode::Slash(tag),
            progress,
        });
    }
    if is_white(b) {
        return Ok(Place {
            mode: Mode::Among(tag),
            progress,
        });
    }
    Err(Unread::Bad)
}

/// Reads a byte in the name of a start tag.
pub fn naming(alloc: Global, progress: Progress, name: List<u8>, b: u8) -> Result<Place, Unread>
    ensures { Takes result (read_in progress (modes.Naming name) b) }
{
    if is_name_byte(b) {
        let name = pushed(name, b)?;
        return Ok(Place {
            mode: Mode::Naming(name),
            progress,
        });
    }
    let tag = Tag {
        name: Bytes::from_vec(name.into_vec()),
        attrs: List::of(Vec::new(alloc)),
    };
    read_behind(alloc, progress, tag, b)
}

/// Reads a byte behind white space in a start tag.
pub fn among(alloc: Global, progress: Progress, tag: Tag, b: u8) -> Result<Place, Unread>
    ensures { Takes result (read_in progress (modes.Among tag) b) }
{
    if begins_name(b) {
        let key = pushed(List::of(Vec::new(alloc)), b)?;
        return Ok(Place {
            mode: Mode::Keying(tag, key),
            progress,
        });
    }
    read_behind(alloc, progress, tag, b)
}

/// Reads a byte in the name of an attribute.
pub fn keying(progress: Progress, tag: Tag, key: List<u8>, b: u8) -> Result<Place, Unread>
    ensures { Takes result (read_in progress (modes.Keying tag key) b) }
{
    if is_name_byte(b) {
        let key = pushed(key, b)?;
        return Ok(Place {
            mode: Mode::Keying(tag, key),
            progress,
        });
    }
    keyed(progress, tag, Bytes::from_vec(key.into_vec()), b)
}

/// Reads a byte behind the name of an attribute.
pub fn keyed(progress: Progress, tag: Tag, key: Bytes, b: u8) -> Result<Place, Unread>
    ensures { Takes result (read_keyed progress tag key b) }
{
    if b == b'=' {
        return Ok(Place {
            mode: Mode::Equal(tag, key),
            progress,
        });
    }
    if is_white(b) {
        return Ok(Place {
            mode: Mode::Keyed(tag, key),
            progress,
        });
    }
    Err(Unread::Bad)
}

/// Reads a byte behind the `=` of an attribute.
pub fn equal(
    alloc: Global,
    progress: Progress,
    tag: Tag,
    key: Bytes,
    b: u8,
) -> Result<Place, Unread>
    ensures { Takes result (read_in progress (modes.Equal tag key) b) }
{
    if b == b'"' || b == b'\'' {
        return Ok(Place {
            mode: Mode::Valued(tag, key, b, List::of(Vec::new(alloc))),
            progress,
        });
    }
    if is_white(b) {
        return Ok(Place {
            mode: Mode::Equal(tag, key),
            progress,
        });
    }
    Err(Unread::Bad)
}

fn with_raw(tag: Tag, key: Bytes, value: Bytes) -> Result<Tag, NoMemory>
    ensures { IfOk result (λ t. t ≡ with_raw tag (record { key = key; value = value })) }
{
    let Tag { name, attrs } = tag;
    let attrs = pushed(attrs, Raw { key, value })?;
    Ok(Tag { name, attrs })
}

/// Reads a byte in the value of an attribute.
pub fn valued(
    alloc: Global,
    progress: Progress,
    tag: Tag,
    key: Bytes,
    quote: u8,
    value: List<u8>,
    b: u8,
) -> Result<Place, Unread>
    ensures { Takes result (read_in progress (modes.Valued tag key quote value) b) }
{
    if b == quote {
        let tag = with_raw(tag, key, Bytes::from_vec(value.into_vec()))?;
        return Ok(Place {
            mode: Mode::Behind(tag),
            progress,
        });
    }
    if b == b'<' {
        return Err(Unread::Bad);
    }
    if b == b'&' {
        return Ok(Place {
            mode: Mode::ValueRef(tag, key, quote, value, List::of(Vec::new(alloc))),
            progress,
        });
    }
    let value = pushed(value, blanked(b))?;
    Ok(Place {
        mode: Mode::Valued(tag, key, quote, value),
        progress,
    })
}

/// The list with these bytes behind it.
fn appended(list: List<u8>, bytes: &[u8]) -> Result<List<u8>, NoMemory>
    ensures { IfOk result (λ all. all ≡ list ++ bytes.now) }
{
    let mut all = list.into_vec();
    all.extend_from_slice(bytes)?;
    Ok(List::of(all))
}

/// Reads a byte behind a `&` in the value of an attribute.
pub fn value_ref(
    alloc: Global,
    progress: Progress,
    tag: Tag,
    key: Bytes,
    quote: u8,
    value: List<u8>,
    word: List<u8>,
    b: u8,
) -> Result<Place, Unread>
    ensures { Takes result (read_in progress (modes.ValueRef tag key quote value word) b) }
{
    if b == b';' {
        let bytes = referred(alloc, word.get())?;
        let value = appended(value, bytes.get())?;
        return Ok(Place {
            mode: Mode::Valued(tag, key, quote, value),
            progress,
        });
    }
    let word = pushed(word, b)?;
    Ok(Place {
        mode: Mode::ValueRef(tag, key, quote, value, word),
        progress,
    })
}
