ghost use Rattle.std.specs.Prelude.{◌≡◌, option_copied};
ghost use Rattle.dsv_base.specs.Gives.{GivesBy};
ghost use Rattle.http_front.specs.Fields.{field_named, first_named, none_is_free};

use crate::field_fault::FieldFault;
use crate::fields::{field_named, first_named};
use crate::login::Login;
use dsv_base::{Bytes, Field, List};

/// A whole request (RFC 9112): its head, who it comes from, and its body.
#[derive(Debug, Drop)]
pub struct Request {
    /// The method, in the letters that it came in.
    pub method: Bytes,
    /// The request target, as it came: its escapes are not undone.
    pub target: Bytes,
    /// The fields of the head, in their order.
    pub fields: List<Field>,
    pub login: Login,
    /// The content, without the form that it was sent in.
    pub body: Bytes,
    /// Whether the connection has no further request after this one.
    pub last: bool,
}

impl Request {
    /// The value of the field of this name, in any case of letters (RFC 9110, section 5.1), if there is
    /// one.
    ///
    /// # Errors
    /// Several fields have the name.
    pub fn field(&self, name: &[u8]) -> Result<Option<&[u8]>, FieldFault>
        ensures { GivesBy option_copied none_is_free result (field_named name.now self.now.fields) }
    {
        field_named(self.fields.get(), name)
    }

    /// The value of the first field of this name, in any case of letters, if there is one; whatever
    /// follows with the same name isn't looked at.
    pub fn first(&self, name: &[u8]) -> Option<&[u8]>
        ensures { option_copied result ≡ first_named name.now self.now.fields }
    {
        first_named(self.fields.get(), name)
    }
}
