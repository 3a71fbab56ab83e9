ghost use Rattle.std.specs.Prelude.{◌≡◌, ◌≤◌, ◌∷◌, Some, IfOk, length, option_and_then};
ghost use Rattle.dsv_base.specs.Gives.{Gives};
ghost use Rattle.dav_elements.specs.Takes.{Takes};
ghost use Rattle.dav_reading.specs.Heads.{behind_mark, after_head};
ghost use Rattle.dav_reading.specs.Modes.{read_in, read_byte, read_bytes};
ghost use Rattle.dav_reading.specs.Runs.{GoesBy};
ghost use Rattle.dav_reading.specs.Documents.{reader_at_start, ended_elem, whole_in, document_with, answer_at_end, document, element_or_form, tree, is_free_of_tree};

use crate::asides::read_aside;
use crate::contents::{closed, closing, content, less, slash, text_ref};
use crate::document::Document;
use crate::form_place::FormPlace;
use crate::forms::{begun_with, form_with, is_content};
use crate::heads::{after_head, behind_mark};
use crate::line_ends::lines_joined;
use crate::mode::{Brackets, Mode, Place, Reader};
use crate::runs::run_on;
use crate::starts::{among, equal, keyed, keying, naming, read_behind, value_ref, valued};
use crate::tree_fault::TreeFault;
use dav_elements::{Elem, Progress, Unread};
use dsv_base::xml_plain;
use std::alloc::Global;

fn read_in(alloc: Global, progress: Progress, mode: Mode, b: u8) -> Result<Place, Unread>
    ensures { Takes result (read_in progress mode b) }
{
    match mode {
        Mode::Content(before) => content(alloc, progress, before, b),
        Mode::TextRef(word) => text_ref(alloc, progress, word, b),
        Mode::Less => less(alloc, progress, b),
        Mode::Naming(name) => naming(alloc, progress, name, b),
        Mode::Behind(tag) => read_behind(alloc, progress, tag, b),
        Mode::Among(tag) => among(alloc, progress, tag, b),
        Mode::Keying(tag, key) => keying(progress, tag, key, b),
        Mode::Keyed(tag, key) => keyed(progress, tag, key, b),
        Mode::Equal(tag, key) => equal(alloc, progress, tag, key, b),
        Mode::Valued(tag, key, quote, value) => valued(alloc, progress, tag, key, quote, value, b),
        Mode::ValueRef(tag, key, quote, value, word) => {
            value_ref(alloc, progress, tag, key, quote, value, word, b)
        }
        Mode::Slash(tag) => slash(alloc, progress, tag, b),
        Mode::Closing(name) => closing(alloc, progress, name, b),
        Mode::Closed(name) => closed(alloc, progress, name, b),
        Mode::Beside(aside) => read_aside(progress, aside, b),
    }
}

fn read_byte(alloc: Global, reader: Reader, b: u8) -> Result<Reader, Unread>
    ensures { Takes result (read_byte reader b) }
{
    let form = form_with(&reader, b);
    let Reader {
        place,
        begun,
        form: _,
    } = reader;
    let begun = begun_with(begun, &place.mode, b)?;
    let Place { mode, progress } = place;
    let place = read_in(alloc, progress, mode, b)?;
    Ok(Reader { place, begun, form })
}

/// Reads a byte, and the run behind it.
fn step<'a>(
    alloc: Global,
    reader: Reader,
    b: u8,
    behind: &'a [u8],
) -> Result<(Reader, &'a [u8]), Unread>
    ensures goes { GoesBy (λ x. read_bytes x.0 x.1.now) result (read_bytes reader (b ∷ behind.now)) }
    ensures shorter { IfOk result (λ x. length x.1.now ≤ length behind.now) }
{
    match read_byte(alloc, reader, b) {
        Err(fault) => Err(fault),
        Ok(reader) => run_on(alloc, reader, behind),
    }
}

fn read_bytes(alloc: Global, nest: u32, text: &[u8]) -> Result<Reader, Unread>
    ensures { Takes result (read_bytes (reader_at_start nest) text.now) }
{
    let mut reader = Reader {
        place: Place {
            mode: Mode::Content(Brackets::Zero),
            progress: Progress::Before(nest, false),
        },
        begun: 0,
        form: None,
    };
    let mut rest = text;
    'steps: while let [b, behind @ ..] = rest {
        let (next, left) = step(alloc, reader, *b, behind)?;
        reader = next;
        rest = left;
    }
    Ok(reader)
}

fn read_text(alloc: Global, nest: u32, text: &[u8]) -> Result<Reader, Unread>
    ensures { Takes result (option_and_then (read_bytes (reader_at_start nest)) (after_head (behind_mark text.now))) }
{
    let body = after_head(behind_mark(text))?;
    read_bytes(alloc, nest, body)
}

fn ended_elem(progress: Progress) -> Option<Elem>
    ensures { result ≡ ended_elem progress }
{
    match progress {
        Progress::Before(_, _) => None,
        Progress::Within(_, _) => None,
        Progress::After(elem) => Some(elem),
    }
}

fn whole_in(place: Place) -> Option<Elem>
    ensures { result ≡ whole_in place.mode place.progress }
{
    let is_between = is_content(&place.mode);
    let Place { mode: _, progress } = place;
    if !is_between {
        return None;
    }
    ended_elem(progress)
}

fn document_with(form: Option<FormPlace>, root: Option<Elem>) -> Result<Document, TreeFault>
    ensures { result ≡ document_with form root }
{
    match root {
        None => Err(TreeFault::BadDocument),
        Some(root) => Ok(Document { root, form }),
    }
}

fn answer_at_end(reader: Reader) -> Result<Document, TreeFault>
    ensures { result ≡ answer_at_end (Some reader) }
{
    let Reader {
        place,
        begun: _,
        form,
    } = reader;
    document_with(form, whole_in(place))
}

/// Reads a document in which at most `nest` elements stand in each other (XML 1.0; Namespaces in XML 1.0).
///
/// Its errors: it isn't in the grammar; or want of memory. A document with left-out forms is read, and tells
/// the first of them.
#[tactic(auto, unfolding(crate::specs::Documents::document))]
pub fn read_document(alloc: Global, bytes: &[u8], nest: u32) -> Result<Document, TreeFault>
    ensures { Gives is_free_of_tree result (document nest bytes.now) }
{
    if !xml_plain(bytes) {
        return Err(TreeFault::BadDocument);
    }
    let text = match lines_joined(alloc, bytes) {
        Ok(text) => text,
        Err(_) => return Err(TreeFault::NoMemory),
    };
    match read_text(alloc, nest, text.as_slice()) {
        Ok(reader) => answer_at_end(reader),
        Err(Unread::Bad) => Err(TreeFault::BadDocument),
        Err(Unread::NoMemory) => Err(TreeFault::NoMemory),
    }
}

fn element_or_form(document: Document) -> Result<Elem, TreeFault>
    ensures { result ≡ element_or_form document }
{
    let Document { root, form } = document;
    match form {
        None => Ok(root),
        Some(first) => Err(TreeFault::NotInProfile(first.form)),
    }
}

/// Reads the element of a document, in which at most `nest` stand in each other.
///
/// Its errors: it isn't in the grammar; it is, with a form that is left out, of which the first is
/// named; or want of memory.
#[tactic(auto, unfolding(crate::specs::Documents::tree))]
pub fn read_tree(alloc: Global, bytes: &[u8], nest: u32) -> Result<Elem, TreeFault>
    ensures { Gives is_free_of_tree result (tree nest bytes.now) }
{
    match read_document(alloc, bytes, nest) {
        Ok(document) => element_or_form(document),
        Err(fault) => Err(fault),
    }
}
