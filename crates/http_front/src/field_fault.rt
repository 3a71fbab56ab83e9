/// Why the value of a field isn't told.
#[derive(Clone, Copy, Debug, PartialEq, Eq)]
pub enum FieldFault {
    /// The field stands more than once.
    Doubled,
}
