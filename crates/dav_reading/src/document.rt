use crate::form_place::FormPlace;
use dav_elements::Elem;

/// A document that was read (XML 1.0, section 2.1).
#[derive(Debug, Drop)]
pub struct Document {
    /// Its one element that stands in no other.
    pub root: Elem,
    /// The first left-out form in it: a document type declaration or a processing instruction.
    pub form: Option<FormPlace>,
}
