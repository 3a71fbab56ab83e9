use dsv_base::Form;

/// Why a document isn't read.
#[derive(Clone, Copy, Debug, PartialEq, Eq)]
pub enum TreeFault {
    /// It isn't in the grammar.
    BadDocument,
    /// It is, with a form that is left out, of which this is the first: a document type declaration or
    /// a processing instruction.
    NotInProfile(Form),
    /// Want of memory.
    NoMemory,
}
