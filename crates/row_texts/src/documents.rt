use dav_documents::{Namespace, Writer};
use dsv_base::cut_at;
use row_files::{Answer, Given, named};

/// The tables on documents that are written.
#[derive(Clone, Copy)]
pub enum DocumentTable {
    Document,
    Namespace,
}

/// Answers a row of such a table.
pub fn answer_document(table: DocumentTable, given: &Given<'_>, out: &mut Answer) {
    match table {
        DocumentTable::Document => put_document(given, out),
        DocumentTable::Namespace => match named(&NAMESPACES, given.text(0)) {
            Some(namespace) => out.put(namespace.uri()),
            None => out.give_up(),
        },
    }
}

/// The namespaces by name.
const NAMESPACES: [(&str, Namespace); 6] = [
    ("WebDAV", Namespace::Dav),
    ("reports", Namespace::Svn),
    ("live properties", Namespace::SubversionDav),
    ("svn properties", Namespace::SubversionSvn),
    ("custom properties", Namespace::SubversionCustom),
    ("errors", Namespace::ApacheDav),
];

/// `body`, with the declaration of XML, or `page`, and then the pieces that are written.
fn put_document(given: &Given<'_>, out: &mut Answer) {
    match given.text(0) {
        "body" => match Writer::body(given.alloc) {
            Ok(writer) => put_pieces(writer, given, out),
            Err(_) => out.give_up(),
        },
        "page" => put_pieces(Writer::new(given.alloc), given, out),
        _ => out.give_up(),
    }
}

fn put_pieces(mut writer: Writer, given: &Given<'_>, out: &mut Answer) {
    'pieces: for place in 1..given.columns().len() {
        if put_piece(&mut writer, given.text(place), given.bytes(place)).is_none() {
            out.give_up();
        }
    }
    out.put_made(writer.finish());
}

/// What a piece is.
#[derive(Clone, Copy)]
enum Piece {
    Start,
    End,
    Empty,
    Text,
    Bind,
    Attribute,
    Element,
}

/// The pieces by name.
const PIECES: [(&str, Piece); 7] = [
    ("start", Piece::Start),
    ("end", Piece::End),
    ("empty", Piece::Empty),
    ("text", Piece::Text),
    ("bind", Piece::Bind),
    ("attribute", Piece::Attribute),
    ("element", Piece::Element),
];

/// Writes one piece: `start NAME`, `end NAME`, `empty NAME`, `text TEXT`, `bind PREFIX NAMESPACE`,
/// `attribute NAME VALUE` or `element NAME TEXT`. None where it isn't one, or memory ended.
fn put_piece(writer: &mut Writer, text: &str, bytes: &[u8]) -> Option<()> {
    let (kind, words) = text.split_once(' ')?;
    let (_, rest) = cut_at(bytes, b' ')?;
    put_piece_of(writer, named(&PIECES, kind)?, words, rest)
}

fn put_piece_of(writer: &mut Writer, kind: Piece, words: &str, rest: &[u8]) -> Option<()> {
    match kind {
        Piece::Start => writer.start(rest).ok(),
        Piece::End => writer.end(rest).ok(),
        Piece::Empty => writer.empty(rest).ok(),
        Piece::Text => writer.text(rest).ok(),
        Piece::Bind => put_binding(writer, words),
        Piece::Attribute => put_attribute(writer, rest),
        Piece::Element => put_element(writer, rest),
    }
}

fn put_binding(writer: &mut Writer, words: &str) -> Option<()> {
    let (prefix, name) = words.split_once(' ')?;
    let namespace = named(&NAMESPACES, name)?;
    writer.bind(prefix.as_bytes(), namespace.uri()).ok()
}

fn put_attribute(writer: &mut Writer, rest: &[u8]) -> Option<()> {
    let (name, value) = cut_at(rest, b' ')?;
    writer.attribute(name, value).ok()
}

fn put_element(writer: &mut Writer, rest: &[u8]) -> Option<()> {
    let (name, text) = cut_at(rest, b' ')?;
    writer.text_element(name, text).ok()
}
