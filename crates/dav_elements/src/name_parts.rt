use dsv_base::Bytes;

/// A name cut at its colon: what stands before it, if there is one, and the rest.
#[derive(Debug, Drop)]
pub struct NameParts {
    pub prefix: Bytes,
    pub local: Bytes,
}
