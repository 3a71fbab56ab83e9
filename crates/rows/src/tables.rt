use crate::run_tables::check_varied;
use anyhow::{Context, Result, bail};
use row_files::{Answer, Book, Given, Line, Report, Row, difference, expand, filled};
use std::alloc::Global;

/// What the rows of a table are about.
#[derive(Clone, Copy)]
pub enum About {
    /// One call, which the table's name says.
    Call,
    /// Runs that differ in one line.
    Run,
}

/// Checks the rows of a table.
pub fn check_table(
    alloc: Global,
    book: &Book,
    about: About,
    table: &Row,
    report: &mut Report,
) -> Result<()> {
    'rows: for line in &table.lines {
        if line.key.as_str() == "-" {
            check_row(alloc, book, about, table, line, report)?;
        }
    }
    Ok(())
}

fn check_row(
    alloc: Global,
    book: &Book,
    about: About,
    table: &Row,
    line: &Line,
    report: &mut Report,
) -> Result<()> {
    let number = line.number;
    let name = format!(in alloc; "{}, line {number}", table.name)?;
    let difference = difference_in(alloc, book, about, table, line).context(name.as_str())?;
    report.count(name.as_str(), difference)
}

fn difference_in(
    alloc: Global,
    book: &Book,
    about: About,
    table: &Row,
    line: &Line,
) -> Result<Option<String>> {
    match about {
        About::Call => check_call(alloc, book, table, line),
        About::Run => check_varied(alloc, book, table, line),
    }
}

/// Where a row differs, `GIVEN => WANTED` with ` | ` between the columns of each, if anywhere.
fn check_call(alloc: Global, book: &Book, table: &Row, line: &Line) -> Result<Option<String>> {
    let Some((given, wanted)) = line.value.split_once(" => ") else {
        bail!("not a row `- GIVEN => WANTED`");
    };
    let came = answer_to(alloc, book, table, given)?;
    let wanted = filled(alloc, table.find("wanted"), wanted)?;
    let wanted = expand(alloc, book, wanted.as_str())?;
    difference(alloc, "answer", wanted.as_slice(), came.as_slice())
}

fn answer_to(alloc: Global, book: &Book, table: &Row, given: &str) -> Result<Vec<u8>> {
    let given = filled(alloc, table.find("given"), given)?;
    let given = Given::of(alloc, book, table, given.as_str())?;
    match answer_of(table.name.as_str(), &given) {
        Some(answer) => Ok(answer),
        None => bail!("no such table, not in its form, or no memory"),
    }
}

fn answer_of(table: &str, given: &Given<'_>) -> Option<Vec<u8>> {
    let mut out = Answer::new(given.alloc);
    if !row_texts::answer(table, given, &mut out) && !row_inputs::answer(table, given, &mut out) {
        out.give_up();
    }
    out.end()
}
