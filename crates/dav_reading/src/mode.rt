use crate::form_place::FormPlace;
use dav_elements::{Progress, Tag};
use dsv_base::{Bytes, List};

/// Where a reader stands in what may stand between tags beside text.
#[derive(Debug, Drop)]
pub enum Aside {
    /// Behind `<!` and these bytes, before it is known what begins.
    Marked(List<u8>),
    /// In a comment.
    Comment,
    /// Behind a `-` there.
    CommentDash,
    /// Behind `--` there.
    CommentEnd,
    /// In a section of character data.
    Data,
    /// Behind a `]` there.
    DataBracket,
    /// Behind `]]` there.
    DataEnd,
    /// In a document type, in so many square brackets.
    Typing(u64),
    /// In quotes there.
    Quoted(u64, u8),
    /// In a processing instruction.
    Processing,
    /// Behind a `?` there.
    ProcessingEnd,
}

/// How many `]` stand in a row just before, as bytes of text.
#[derive(Clone, Copy, Debug)]
pub enum Brackets {
    Zero,
    One,
    /// Two or more.
    Several,
}

/// Where a reader stands in a document's text.
#[derive(Debug, Drop)]
pub enum Mode {
    /// Between tags, behind so many `]`: `]]>` stands in no text.
    Content(Brackets),
    /// Behind `&` there, and these bytes.
    TextRef(List<u8>),
    /// Behind `<`.
    Less,
    /// In the name of a start tag.
    Naming(List<u8>),
    /// Behind its name or an attribute.
    Behind(Tag),
    /// Behind white space there.
    Among(Tag),
    /// In the name of an attribute.
    Keying(Tag, List<u8>),
    /// Behind that and white space.
    Keyed(Tag, Bytes),
    /// Behind `=`.
    Equal(Tag, Bytes),
    /// In the value, which this quote ends.
    Valued(Tag, Bytes, u8, List<u8>),
    /// Behind `&` there, and these bytes.
    ValueRef(Tag, Bytes, u8, List<u8>, List<u8>),
    /// Behind the `/` of an empty element.
    Slash(Tag),
    /// In the name of an end tag.
    Closing(List<u8>),
    /// Behind that and white space.
    Closed(List<u8>),
    /// In what is neither text nor tag.
    Beside(Aside),
}

/// Where a reader stands, in the text and in the tree.
#[derive(Debug, Drop)]
pub struct Place {
    pub mode: Mode,
    pub progress: Progress,
}

/// A reader in a document: how many elements began so far, and the first left-out form.
#[derive(Debug, Drop)]
pub struct Reader {
    pub place: Place,
    pub begun: u64,
    pub form: Option<FormPlace>,
}
