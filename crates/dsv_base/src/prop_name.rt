use crate::bytes::Bytes;

/// The name of a property or an element as WebDAV has it: a namespace, which is empty where there is
/// none, and a local name (RFC 4918, section 4.4; Namespaces in XML).
#[derive(Debug, Drop)]
pub struct PropName {
    pub space: Bytes,
    pub name: Bytes,
}
