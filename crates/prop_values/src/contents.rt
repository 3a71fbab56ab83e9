ghost use Rattle.std.specs.Prelude.{◌≡◌, IfOk, OnOk, codes};
ghost use Rattle.std.specs.Fmt.{decimal};
ghost use Rattle.hex.specs.Hex.{encode_lower};
ghost use Rattle.dav_documents.specs.Drafts.{with_elements, with_written_text, with_attribute};
ghost use Rattle.dav_documents.specs.Written.{attribute};
ghost use Rattle.dav_names.specs.declared.resource.Resource.TheVariants as resources;
ghost use Rattle.dav_names.specs.Written.{target_text};
ghost use Rattle.prop_values.specs.Contents.{no_content, value_content, encoded_content, base64_text, tagged_element};
ghost use Rattle.prop_values.specs.LiveValues.{href_element};
ghost use Rattle.prop_values.specs.Values.{content_of, with_content};

use crate::locks::put_lock;
use crate::subject::NodePlace;
use crate::tag::Tag;
use crate::value::Value;
use base64::engine::general_purpose::STANDARD;
use dav_documents::Writer;
use dav_names::{Resource, write_target};
use dsv_base::{Bytes, NoMemory, xml_plain};
use dsv_dates::{http_text, iso_text};
use itoa::Buffer;
use std::alloc::Global;

/// Writes the element of a property.
#[tactic(auto, using(crate::proofs::Pieces::tagged_piece))]
pub(crate) fn put_property(
    alloc: Global,
    writer: &mut Writer,
    tag: &Tag<'_>,
    value: &Value<'_>,
) -> Result<(), NoMemory>
    ensures { OnOk result
        (writer.new ≡ with_elements (tagged_element tag.now (content_of value.now)) writer.old) }
{
    tag.start(writer)?;
    put_content(alloc, writer, value)?;
    writer.end(tag.name())
}

/// Writes the empty element of a property that has no value.
#[tactic(auto, using(crate::proofs::Pieces::tagged_piece))]
pub(crate) fn put_empty(writer: &mut Writer, tag: &Tag<'_>) -> Result<(), NoMemory>
    ensures { OnOk result (writer.new ≡ with_elements (tagged_element tag.now no_content) writer.old) }
{
    tag.start(writer)?;
    writer.end(tag.name())
}

/// Writes what stands in the element of a property.
#[tactic(auto, unfolding(crate::specs::Values::content_of))]
pub(crate) fn put_content(
    alloc: Global,
    writer: &mut Writer,
    value: &Value<'_>,
) -> Result<(), NoMemory>
    ensures { OnOk result (writer.new ≡ with_content (content_of value.now) writer.old) }
{
    match value {
        Value::Empty => Ok(()),
        Value::Collection => writer.empty(b"D:collection"),
        Value::Baseline => writer.empty(b"D:baseline"),
        Value::Text(text) => writer.text(text),
        Value::Raw(bytes) => put_raw(alloc, writer, bytes),
        Value::Number(number) => put_number(writer, *number),
        Value::IsoTime(moment) => writer.text(iso_text(*moment).as_slice()),
        Value::HttpTime(moment) => writer.text(http_text(*moment).as_slice()),
        Value::Md5(sum) => put_md5(writer, sum),
        Value::Sha1(sum) => put_sha1(writer, sum),
        Value::CheckedIn(root, place) => put_checked_in(alloc, writer, root, place),
        Value::Locked(root, lock) => put_lock(alloc, writer, root, lock),
    }
}

/// Bytes as text where a document can hold them, and else in base64, which an attribute tells.
#[tactic(auto, unfolding(crate::specs::Contents::value_content))]
pub(crate) fn put_raw(alloc: Global, writer: &mut Writer, bytes: &[u8]) -> Result<(), NoMemory>
    ensures { OnOk result (writer.new ≡ with_content (value_content bytes.now) writer.old) }
{
    if xml_plain(bytes) {
        return writer.text(bytes);
    }
    put_encoded(alloc, writer, bytes)
}

/// Bytes in base64 (RFC 4648, section 4), which an attribute tells.
fn put_encoded(alloc: Global, writer: &mut Writer, bytes: &[u8]) -> Result<(), NoMemory>
    ensures { OnOk result (writer.new ≡ with_content (encoded_content bytes.now) writer.old) }
{
    let text = base64_text(alloc, bytes)?;
    put_base64(writer, text.get())
}

fn put_base64(writer: &mut Writer, text: &[u8]) -> Result<(), NoMemory>
    ensures { OnOk result
        (writer.new ≡ with_written_text text.now
        (with_attribute (attribute (codes "V:encoding") (codes "base64")) writer.old)) }
{
    writer.attribute(b"V:encoding", b"base64")?;
    writer.text(text)
}

#[tactic(auto, unfolding(crate::specs::Contents::base64_text))]
fn base64_text(alloc: Global, bytes: &[u8]) -> Result<Bytes, NoMemory>
    ensures { IfOk result (λ text. text ≡ base64_text bytes.now) }
{
    let text = STANDARD.encode(alloc, bytes)?;
    Ok(Bytes::from_vec(text.into_bytes()))
}

fn put_number(writer: &mut Writer, number: u64) -> Result<(), NoMemory>
    ensures { OnOk result (writer.new ≡ with_written_text (decimal number) writer.old) }
{
    let mut buffer = Buffer::new();
    writer.text(buffer.format(number).as_bytes())
}

fn put_md5(writer: &mut Writer, sum: &[u8; 16]) -> Result<(), NoMemory>
    ensures { OnOk result (writer.new ≡ with_written_text (encode_lower sum.now) writer.old) }
{
    let mut text = [0u8; 32];
    match hex::encode_to_slice(sum.as_slice(), &mut text) {
        Ok(()) => writer.text(&text),
        Err(_fault) => unreachable!(),
    }
}

fn put_sha1(writer: &mut Writer, sum: &[u8; 20]) -> Result<(), NoMemory>
    ensures { OnOk result (writer.new ≡ with_written_text (encode_lower sum.now) writer.old) }
{
    let mut text = [0u8; 40];
    match hex::encode_to_slice(sum.as_slice(), &mut text) {
        Ok(()) => writer.text(&text),
        Err(_fault) => unreachable!(),
    }
}

/// Where a node is as one of its revision.
fn put_checked_in(
    alloc: Global,
    writer: &mut Writer,
    root: &[u8],
    place: &NodePlace<'_>,
) -> Result<(), NoMemory>
    ensures { OnOk result
        (writer.new ≡ with_elements
        (href_element (target_text root.now (resources.Rvr place.now.rev place.now.path))) writer.old) }
{
    let resource = Resource::Rvr(place.rev, place.path.copy()?);
    let target = write_target(alloc, root, &resource)?;
    writer.text_element(b"D:href", target.get())
}
