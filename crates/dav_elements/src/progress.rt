use crate::around::Around;
use crate::elem::Elem;
use crate::frame::Frame;

/// How far a document is read.
#[derive(Debug, Drop)]
pub enum Progress {
    /// Before its element: how many may stand in each other, and whether a document type was declared.
    Before(u32, bool),
    /// In an element: the innermost, and those around it.
    Within(Frame, Around),
    /// Behind its element.
    After(Elem),
}
