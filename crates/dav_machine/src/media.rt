ghost use Rattle.std.specs.Prelude.{◌≡◌};
ghost use Rattle.std.specs.List.{list_all};
ghost use Rattle.std.specs.Option.{option_copied};
ghost use Rattle.dav_machine.specs.Media.{prop_value, is_field_byte, is_media_type, media_type};

use dsv_base::{Prop, trimmed};

/// The most bytes that a media type has.
const MOST_BYTES: usize = 128;

/// The media type of a file with these properties: what `svn:mime-type` says, where that can stand in
/// a field, and else `text/plain`.
#[tactic(auto, unfolding(crate::specs::Media::media_type))]
pub fn media_type(props: &[Prop]) -> &[u8]
    ensures { result.now ≡ media_type props.now }
{
    match prop_value(b"svn:mime-type", props) {
        Some(value) if is_media_type(value) => value,
        _ => b"text/plain",
    }
}

/// The value of the property of this name.
fn prop_value<'a>(name: &[u8], props: &'a [Prop]) -> Option<&'a [u8]>
    ensures { option_copied result ≡ prop_value name.now props.now }
{
    props
        .iter()
        .find(|prop| prop.name.get() == name)
        .map(|prop| prop.value.get())
}

/// Whether the value can stand in a field as it is.
fn is_media_type(value: &[u8]) -> bool
    ensures { result ≡ is_media_type value.now }
{
    if value.is_empty() || value.len() > MOST_BYTES {
        return false;
    }
    if !are_field_bytes(value) {
        return false;
    }
    trimmed(value) == value
}

/// Whether all bytes are blanks or visible characters of ASCII.
fn are_field_bytes(value: &[u8]) -> bool
    ensures { result ≡ list_all is_field_byte value.now }
{
    value.iter().all(|b| *b >= b' ' && *b <= b'~')
}
