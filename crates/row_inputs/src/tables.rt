use crate::messages::{MessageTable, answer_message};
use crate::rights::{RightTable, answer_right};
use crate::scripts::{ScriptTable, answer_script};
use row_files::{Answer, Given, named};

/// What a table is about.
#[derive(Clone, Copy)]
enum Table {
    Script(ScriptTable),
    Right(RightTable),
    Message(MessageTable),
}

/// The tables by name.
const TABLES: [(&str, Table); 18] = [
    ("script", Table::Script(ScriptTable::Script)),
    ("repository", Table::Script(ScriptTable::Repository)),
    ("written revisions", Table::Script(ScriptTable::Written)),
    ("node", Table::Script(ScriptTable::Node)),
    ("changed paths", Table::Script(ScriptTable::Changed)),
    ("line of a node", Table::Script(ScriptTable::Line)),
    ("checksum", Table::Script(ScriptTable::Checksum)),
    ("nodes", Table::Script(ScriptTable::Nodes)),
    ("draft", Table::Script(ScriptTable::Draft)),
    ("level", Table::Script(ScriptTable::Level)),
    ("rules", Table::Right(RightTable::Rules)),
    ("rights", Table::Right(RightTable::Rights)),
    ("messages", Table::Message(MessageTable::Messages)),
    ("messages in pieces", Table::Message(MessageTable::Pieces)),
    ("request", Table::Message(MessageTable::Request)),
    ("last request", Table::Message(MessageTable::Last)),
    ("login", Table::Message(MessageTable::Login)),
    ("users file", Table::Message(MessageTable::Users)),
];

/// Answers a row of the table of this name, and says whether there is such a table here.
pub fn answer(table: &str, given: &Given<'_>, out: &mut Answer) -> bool {
    match named(&TABLES, table) {
        Some(Table::Script(table)) => answer_script(table, given, out),
        Some(Table::Right(table)) => answer_right(table, given, out),
        Some(Table::Message(table)) => answer_message(table, given, out),
        None => return false,
    }
    true
}
