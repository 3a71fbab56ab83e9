use crate::bodies::{BodyTable, answer_body};
use crate::dates::{DateTable, answer_date};
use crate::documents::{DocumentTable, answer_document};
use crate::locks::answer_locks;
use crate::outside::{ObjectTable, answer_object};
use crate::paths::{PathTable, answer_path};
use crate::reading::answer_reading;
use crate::replies::{ReplyTable, answer_reply};
use crate::targets::{TargetTable, answer_target};
use crate::texts::{TextTable, answer_text};
use row_files::{Answer, Given, named};

/// What a table is about.
#[derive(Clone, Copy)]
enum Table {
    Text(TextTable),
    Path(PathTable),
    Date(DateTable),
    Locks,
    Object(ObjectTable),
    Document(DocumentTable),
    Reading,
    Body(BodyTable),
    Target(TargetTable),
    Reply(ReplyTable),
}

/// The tables by name.
const TABLES: [(&str, Table); 33] = [
    ("text in XML", Table::Text(TextTable::InXml)),
    ("text that XML can hold", Table::Text(TextTable::Plain)),
    ("line", Table::Text(TextTable::Line)),
    ("line of a file", Table::Text(TextTable::FileLine)),
    ("blank line, skipped line", Table::Text(TextTable::Skipped)),
    ("cut text", Table::Text(TextTable::Cut)),
    ("number", Table::Text(TextTable::Number)),
    (
        "name of a user, of a repository",
        Table::Text(TextTable::Name),
    ),
    ("path", Table::Path(PathTable::Path)),
    ("path in a URL", Table::Path(PathTable::InUrl)),
    ("path under a path", Table::Path(PathTable::Under)),
    ("parent and name", Table::Path(PathTable::Parent)),
    ("joined path", Table::Path(PathTable::Joined)),
    ("revision", Table::Path(PathTable::Revision)),
    ("moment", Table::Path(PathTable::Moment)),
    ("date as Subversion writes it", Table::Date(DateTable::Iso)),
    ("date as HTTP writes it", Table::Date(DateTable::Http)),
    ("locks", Table::Locks),
    ("source", Table::Object(ObjectTable::Source)),
    ("sink", Table::Object(ObjectTable::Sink)),
    ("files", Table::Object(ObjectTable::Files)),
    ("clock", Table::Object(ObjectTable::Clock)),
    ("keeper", Table::Object(ObjectTable::Keeper)),
    ("document", Table::Document(DocumentTable::Document)),
    ("namespace", Table::Document(DocumentTable::Namespace)),
    ("document read", Table::Reading),
    ("propfind body", Table::Body(BodyTable::Propfind)),
    ("target", Table::Target(TargetTable::Target)),
    ("written target", Table::Target(TargetTable::Written)),
    ("root", Table::Target(TargetTable::Root)),
    ("refusal", Table::Reply(ReplyTable::Refusal)),
    ("want of memory", Table::Reply(ReplyTable::NoMemory)),
    ("reply", Table::Reply(ReplyTable::Reply)),
];

/// Answers a row of the table of this name, and says whether there is such a table here.
pub fn answer(table: &str, given: &Given<'_>, out: &mut Answer) -> bool {
    match named(&TABLES, table) {
        Some(Table::Text(table)) => answer_text(table, given, out),
        Some(Table::Path(table)) => answer_path(table, given, out),
        Some(Table::Date(table)) => answer_date(table, given, out),
        Some(Table::Locks) => answer_locks(given, out),
        Some(Table::Object(table)) => answer_object(table, given, out),
        Some(Table::Document(table)) => answer_document(table, given, out),
        Some(Table::Reading) => answer_reading(given, out),
        Some(Table::Body(table)) => answer_body(table, given, out),
        Some(Table::Target(table)) => answer_target(table, given, out),
        Some(Table::Reply(table)) => answer_reply(table, given, out),
        None => return false,
    }
    true
}
