ghost use Rattle.std.specs.Prelude.{◌≡◌, ◌++◌, ℕ, List, false, [], OnOk, IfOk, codes};
ghost use Rattle.std.specs.List.{list_any};
ghost use Rattle.dsv_base.specs.Escapes.{xml_text};
ghost use Rattle.dav_documents.specs.Plain.{needs_escape};
ghost use Rattle.dav_documents.specs.Written.{Written, attribute, binding, empty_element, text_element, written_text, page_text, body_text};
ghost use Rattle.dav_documents.specs.Drafts.{nothing_written, declaration_written, front_written, with_tag_closed, started, with_value, with_attribute, with_written_text, ended, with_elements};

use dsv_base::{Bytes, NoMemory, push_xml_text};
use std::alloc::Global;
use std::marker::Model;

/// Writes a document from its beginning to its end, each byte once. An element is written by `start`,
/// then its attributes, its text, the elements in it, and `end` with the same name: an element
/// without content gets one tag. Nothing is refused, so the caller sees to it that names are names
/// and that the pieces make a tree: what they make, the contracts say of any pieces.
///
/// The one error of each call is want of memory. A piece may then be written in part, so a writer
/// that failed is to be dropped.
#[derive(Debug, Drop)]
pub struct Writer {
    bytes: Vec<u8>,
    /// Whether the bytes end in a start tag without its `>`.
    in_tag: bool,
}

impl Model for Writer {
    ghost use Rattle.dav_documents.specs.Drafts.{Draft};

    ghost Value = { Draft };

    ghost view = { λ w. record { text = w.bytes.items; in_tag = w.in_tag } };
}

impl Writer {
    /// A writer of elements alone, as of a listing in HTML.
    #[tactic(auto, unfolding(crate::specs::Drafts::nothing_written))]
    pub fn new(alloc: Global) -> Writer
        ensures { result ≡ nothing_written }
    {
        Writer {
            bytes: Vec::new(alloc),
            in_tag: false,
        }
    }

    /// A writer of a body in XML, which begins with the declaration (XML 1.0, section 2.8).
    #[tactic(auto, unfolding(crate::specs::Drafts::declaration_written))]
    pub fn body(alloc: Global) -> Result<Writer, NoMemory>
        ensures { IfOk result (λ w. w ≡ declaration_written) }
    {
        let bytes = Vec::from_slice(alloc, b"<?xml version=\"1.0\" encoding=\"utf-8\"?>\n")?;
        Ok(Writer {
            bytes,
            in_tag: false,
        })
    }

    /// A writer of elements behind a text that is written as it stands.
    #[tactic(auto, unfolding(crate::specs::Drafts::front_written))]
    pub fn behind(alloc: Global, front: &[u8]) -> Result<Writer, NoMemory>
        ensures { IfOk result (λ w. w ≡ front_written front.now) }
    {
        let bytes = Vec::from_slice(alloc, front)?;
        Ok(Writer {
            bytes,
            in_tag: false,
        })
    }

    /// Begins an element of this name, which is written as it stands, prefix and all.
    #[tactic(auto, unfolding(crate::specs::Drafts::started))]
    pub fn start(&mut self, name: &[u8]) -> Result<(), NoMemory>
        ensures { OnOk result (self.new ≡ started name.now self.old) }
    {
        self.settle()?;
        self.bytes.push(b'<')?;
        self.bytes.extend_from_slice(name)?;
        self.in_tag = true;
        Ok(())
    }

    /// An attribute of the element that was begun; the value is escaped.
    #[tactic(auto, unfolding(crate::specs::Drafts::with_attribute))]
    pub fn attribute(&mut self, name: &[u8], value: &[u8]) -> Result<(), NoMemory>
        ensures { OnOk result (self.new ≡ with_attribute (attribute name.now value.now) self.old) }
    {
        self.bytes.push(b' ')?;
        self.bytes.extend_from_slice(name)?;
        self.push_value(value)
    }

    /// Binds a prefix to a namespace, by an attribute of the element that was begun (Namespaces in
    /// XML 1.0, section 3).
    #[tactic(auto, unfolding(crate::specs::Drafts::with_attribute))]
    pub fn bind(&mut self, prefix: &[u8], uri: &[u8]) -> Result<(), NoMemory>
        ensures { OnOk result (self.new ≡ with_attribute (binding prefix.now uri.now) self.old) }
    {
        self.bytes.extend_from_slice(b" xmlns:")?;
        self.bytes.extend_from_slice(prefix)?;
        self.push_value(uri)
    }

    /// The text of the element that was begun, escaped. An empty one changes nothing.
    #[tactic(auto, unfolding(crate::specs::Drafts::said))]
    pub fn text(&mut self, text: &[u8]) -> Result<(), NoMemory>
        ensures { OnOk result (self.new ≡ with_written_text text.now self.old) }
    {
        if text.is_empty() {
            return Ok(());
        }
        self.settle()?;
        push_escaped(&mut self.bytes, text)
    }

    /// Ends the element that was begun last and hasn't ended; `name` is its name.
    #[tactic(auto, unfolding(crate::specs::Drafts::ended))]
    pub fn end(&mut self, name: &[u8]) -> Result<(), NoMemory>
        ensures { OnOk result (self.new ≡ ended name.now self.old) }
    {
        if self.in_tag {
            self.bytes.extend_from_slice(b"/>")?;
        } else {
            self.bytes.extend_from_slice(b"</")?;
            self.bytes.extend_from_slice(name)?;
            self.bytes.push(b'>')?;
        }
        self.in_tag = false;
        Ok(())
    }

    /// An element without attributes and content.
    pub fn empty(&mut self, name: &[u8]) -> Result<(), NoMemory>
        ensures { OnOk result (self.new ≡ with_elements (empty_element name.now []) self.old) }
    {
        self.start(name)?;
        self.end(name)
    }

    /// An element without attributes that holds a text.
    pub fn text_element(&mut self, name: &[u8], text: &[u8]) -> Result<(), NoMemory>
        ensures { OnOk result (self.new ≡ with_elements (text_element name.now [] text.now) self.old) }
    {
        self.start(name)?;
        self.text(text)?;
        self.end(name)
    }

    /// All that was written, and a line feed: the document, where the pieces were those of a tree.
    pub fn finish(self) -> Result<Bytes, NoMemory>
        ensures text { IfOk result (λ bytes. bytes ≡ with_tag_closed self ++ codes "\n") }
        ensures page { (tree : Written) → self ≡ with_elements tree nothing_written
            → IfOk result (λ bytes. bytes ≡ page_text tree) }
        ensures body { (tree : Written) → self ≡ with_elements tree declaration_written
            → IfOk result (λ bytes. bytes ≡ body_text tree) }
    {
        let mut writer = self;
        writer.settle()?;
        let Writer {
            mut bytes,
            in_tag: _,
        } = writer;
        bytes.push(b'\n')?;
        Ok(Bytes::from_vec(bytes))
    }

    /// All that was written, and a text as it stands.
    pub fn finish_with(self, tail: &[u8]) -> Result<Bytes, NoMemory>
        ensures text { IfOk result (λ bytes. bytes ≡ with_tag_closed self ++ tail.now) }
        ensures between { (tree : Written) (front : List ℕ) → self ≡ with_elements tree (front_written front)
            → IfOk result (λ bytes. bytes ≡ front ++ written_text tree ++ tail.now) }
    {
        let mut writer = self;
        writer.settle()?;
        let Writer {
            mut bytes,
            in_tag: _,
        } = writer;
        bytes.extend_from_slice(tail)?;
        Ok(Bytes::from_vec(bytes))
    }

    /// Gives the start tag its `>`.
    #[tactic(auto, unfolding(crate::specs::Drafts::with_tag_closed))]
    fn settle(&mut self) -> Result<(), NoMemory>
        ensures { OnOk result (self.new ≡ record { text = with_tag_closed self.old; in_tag = false }) }
    {
        if self.in_tag {
            self.bytes.push(b'>')?;
        }
        self.in_tag = false;
        Ok(())
    }

    /// An attribute's value, behind its name.
    fn push_value(&mut self, value: &[u8]) -> Result<(), NoMemory>
        ensures { OnOk result (self.new ≡ with_value value.now self.old) }
    {
        self.bytes.extend_from_slice(b"=\"")?;
        push_escaped(&mut self.bytes, value)?;
        self.bytes.push(b'"')?;
        Ok(())
    }
}

/// Adds a text or a value as it is written in XML: in one piece, where no byte of it needs an escape.
#[tactic(auto, using(crate::proofs::Unescaped::text_kept))]
fn push_escaped(out: &mut Vec<u8>, text: &[u8]) -> Result<(), NoMemory>
    ensures { OnOk result (out.new.items ≡ out.old.items ++ xml_text text.now) }
{
    if needs_escape(text) {
        return push_xml_text(out, text);
    }
    out.extend_from_slice(text)?;
    Ok(())
}

/// Whether a byte of the text needs an escape.
fn needs_escape(text: &[u8]) -> bool
    ensures { result ≡ list_any needs_escape text.now }
{
    text.iter().any(|b| *b == b'&' || *b == b'<' || *b == b'>' || *b == b'"' || *b == b'\r')
}
