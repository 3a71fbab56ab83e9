ghost use Rattle.std.specs.Prelude.{◌≡◌, option_copied};
ghost use Rattle.dsv_base.specs.Gives.{GivesBy};
ghost use Rattle.http_front.specs.Fields.{is_named, has_field, field_named, first_named, none_is_free};

use crate::field_fault::FieldFault;
use dsv_base::Field;

/// Whether one of the fields has this name, in any case of letters.
pub(crate) fn has_field(fields: &[Field], name: &[u8]) -> bool
    ensures { result ≡ has_field name.now fields.now }
{
    fields.iter().any(|field| is_named(field, name))
}

pub(crate) fn is_named(field: &Field, name: &[u8]) -> bool
    ensures { result ≡ is_named name.now field.now }
{
    field.name.get().eq_ignore_ascii_case(name)
}

/// The value of the field of this name, if there is one.
pub(crate) fn field_named<'a>(
    fields: &'a [Field],
    name: &[u8],
) -> Result<Option<&'a [u8]>, FieldFault>
    ensures { GivesBy option_copied none_is_free result (field_named name.now fields.now) }
{
    let mut rest = fields;
    'fields: while let [field, after @ ..] = rest {
        rest = after;
        if !is_named(field, name) {
            continue;
        }
        if has_field(after, name) {
            return Err(FieldFault::Doubled);
        }
        return Ok(Some(field.value.get()));
    }
    Ok(None)
}

/// The value of the first field of this name, if there is one.
pub(crate) fn first_named<'a>(fields: &'a [Field], name: &[u8]) -> Option<&'a [u8]>
    ensures { option_copied result ≡ first_named name.now fields.now }
{
    'fields: for field in fields {
        if is_named(field, name) {
            return Some(field.value.get());
        }
    }
    None
}
