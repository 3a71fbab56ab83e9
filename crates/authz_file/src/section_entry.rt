use crate::grant::Grant;
use dsv_base::{Bytes, List};

/// A line with a key and a value, in its section.
///
/// Its label is what it defines: `@` and the name of a group, `&` and the name of an alias, or in a
/// path section the section's name, a line feed and the key. Of the entries with one label the last
/// counts. Its words are the user names, `@GROUP` and `&ALIAS` that it speaks of: a word of the
/// latter two kinds is the label of what it names.
#[derive(Debug, Drop)]
pub(crate) struct SectionEntry {
    pub(crate) line: u32,
    pub(crate) label: Bytes,
    pub(crate) words: List<Bytes>,
    pub(crate) grant: Option<Grant>,
}
