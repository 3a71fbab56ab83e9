use dsv_base::Form;

/// A left-out form in a document.
#[derive(Clone, Copy, Debug, PartialEq, Eq)]
pub struct FormPlace {
    pub form: Form,
    /// How many elements began before it: those whose number in document order, from 0 for the root, is
    /// below this.
    pub begun: u64,
}
