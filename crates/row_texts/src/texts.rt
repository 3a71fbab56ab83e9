use dsv_base::{
    cut_at, first_line, is_all_blank, is_repository_name, is_skipped, is_user_name, next_line,
    read_decimal, xml_plain, xml_text,
};
use row_files::{Answer, Given};

/// The tables on texts, names and numbers.
#[derive(Clone, Copy)]
pub enum TextTable {
    InXml,
    Plain,
    Line,
    FileLine,
    Skipped,
    Cut,
    Number,
    Name,
}

/// Answers a row of such a table.
pub fn answer_text(table: TextTable, given: &Given<'_>, out: &mut Answer) {
    match table {
        TextTable::InXml => out.put_made(xml_text(given.alloc, given.bytes(0))),
        TextTable::Plain => out.put_word(xml_plain(given.bytes(0))),
        TextTable::Line => put_pair(first_line(given.bytes(0)), out),
        TextTable::FileLine => put_file_line(given.bytes(0), out),
        TextTable::Skipped => put_skipped(given.bytes(0), out),
        TextTable::Cut => put_cut(given.bytes(0), given.bytes(1), out),
        TextTable::Number => put_number(given, out),
        TextTable::Name => put_name(given.bytes(0), out),
    }
}

/// Two texts, or `none`.
fn put_pair(pair: Option<(&[u8], &[u8])>, out: &mut Answer) {
    match pair {
        Some((front, behind)) => {
            out.put(front);
            out.put(b" | ");
            out.put(behind);
        }
        None => out.put(b"none"),
    }
}

fn put_file_line(file: &[u8], out: &mut Answer) {
    let (line, after) = next_line(file);
    out.put(line);
    out.put(b" | ");
    out.put(after.unwrap_or(b"none"));
}

fn put_skipped(line: &[u8], out: &mut Answer) {
    out.put_word(is_all_blank(line));
    out.put(b" | ");
    out.put_word(is_skipped(line));
}

fn put_cut(text: &[u8], mark: &[u8], out: &mut Answer) {
    match mark {
        [mark] => put_pair(cut_at(text, *mark), out),
        _ => out.give_up(),
    }
}

fn put_number(given: &Given<'_>, out: &mut Answer) {
    let Some(most) = given.number(1) else {
        return out.give_up();
    };
    match read_decimal(given.bytes(0), most) {
        Some(number) => out.put_number(number),
        None => out.put(b"none"),
    }
}

fn put_name(name: &[u8], out: &mut Answer) {
    out.put_word(is_user_name(name));
    out.put(b" | ");
    out.put_word(is_repository_name(name));
}
