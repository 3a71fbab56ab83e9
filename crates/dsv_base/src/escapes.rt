ghost use Rattle.std.specs.Prelude.{◌≡◌, ◌++◌, IfOk, OnOk};
ghost use Rattle.std.specs.List.{list_all};
ghost use Rattle.dsv_base.specs.Escapes.{xml_escape, xml_text, is_xml_byte, xml_plain, url_text};

use crate::bytes::Bytes;
use crate::no_memory::NoMemory;
use crate::path::Path;
use crate::text::{has_noncharacter_bytes, is_utf8_text};
use percent_encoding::{AsciiSet, NON_ALPHANUMERIC, ascii_set, percent_encode};
use std::alloc::Global;

/// The ASCII bytes that are escaped in a path: all but RFC 3986's unreserved ones and `/`.
const ESCAPED: AsciiSet = ascii_set!(
    NON_ALPHANUMERIC
        .remove(b'-')
        .remove(b'.')
        .remove(b'_')
        .remove(b'~')
        .remove(b'/')
);

/// `bytes` as they are written in XML, in an element's text or in an attribute (XML 1.0, sections
/// 2.4 and 2.11): `&`, `<`, `>`, `"` and CR are escaped. Its one error is want of memory.
pub fn xml_text(alloc: Global, bytes: &[u8]) -> Result<Bytes, NoMemory>
    ensures { IfOk result (λ text. text ≡ xml_text bytes.now) }
{
    let mut text = Vec::new(alloc);
    push_xml_text(&mut text, bytes)?;
    Ok(Bytes::from_vec(text))
}

/// Adds `bytes` to `out` as they are written in XML, like `xml_text`. Its one error is want of memory,
/// and then some of them may have been added.
#[tactic(auto, unfolding(crate::specs::Escapes::xml_text))]
pub fn push_xml_text(out: &mut Vec<u8>, bytes: &[u8]) -> Result<(), NoMemory>
    ensures { OnOk result (out.new.items ≡ out.old.items ++ xml_text bytes.now) }
{
    'bytes: for byte in bytes {
        put_xml(out, *byte)?;
    }
    Ok(())
}

fn put_xml(out: &mut Vec<u8>, byte: u8) -> Result<(), NoMemory>
    ensures { OnOk result (out.new.items ≡ out.old.items ++ xml_escape byte) }
{
    match byte {
        b'&' => out.extend_from_slice(b"&amp;")?,
        b'<' => out.extend_from_slice(b"&lt;")?,
        b'>' => out.extend_from_slice(b"&gt;")?,
        b'"' => out.extend_from_slice(b"&quot;")?,
        b'\r' => out.extend_from_slice(b"&#13;")?,
        _ => out.push(byte)?,
    }
    Ok(())
}

/// Whether `bytes` are UTF-8 of characters of XML 1.0 (section 2.2), so that XML can hold them as
/// text.
#[tactic(auto, unfolding(crate::specs::Escapes::xml_plain))]
pub fn xml_plain(bytes: &[u8]) -> bool
    ensures { result ≡ xml_plain bytes.now }
{
    if !is_utf8_text(bytes) {
        return false;
    }
    if !has_xml_bytes(bytes) {
        return false;
    }
    !has_noncharacter_bytes(bytes)
}

fn has_xml_bytes(bytes: &[u8]) -> bool
    ensures { result ≡ list_all is_xml_byte bytes.now }
{
    bytes
        .iter()
        .all(|b| *b >= 32 || *b == b'\t' || *b == b'\n' || *b == b'\r')
}

/// The path as it is written in a URL (RFC 3986, section 2.1): letters, digits, `-`, `.`, `_`, `~`
/// and `/` stay, and every other byte is `%` with two upper-case hexadecimal digits. Its one error is
/// want of memory.
pub fn url_text(alloc: Global, path: &Path) -> Result<Bytes, NoMemory>
    ensures { IfOk result (λ text. text ≡ url_text path.now) }
{
    let mut text = String::new(alloc);
    percent_encode(path.text(), ESCAPED).append_to(&mut text)?;
    Ok(Bytes::from_vec(text.into_bytes()))
}
