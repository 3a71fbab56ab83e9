use crate::bytes::Bytes;
use crate::prop_name::PropName;

/// One instruction of a PROPPATCH (RFC 4918, section 9.2): the property's name and the value that it
/// is set to, or none where it is removed.
#[derive(Debug, Drop)]
pub struct PropEdit {
    pub name: PropName,
    pub value: Option<Bytes>,
}
