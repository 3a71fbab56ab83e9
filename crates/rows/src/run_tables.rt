use crate::run_rows::check_run;
use anyhow::{Result, bail};
use row_files::{Book, Line, Row, filled};
use std::alloc::Global;

/// Where a row of `run` differs from what it wants, if anywhere. It differs from the others of its table
/// in one line: what is given stands for the line that the table says by `vary`, and what is wanted for
/// the one that it says by `tell`.
pub fn check_varied(
    alloc: Global,
    book: &Book,
    table: &Row,
    line: &Line,
) -> Result<Option<String>> {
    let row = varied(alloc, table, line)?;
    check_run(alloc, book, &row)
}

/// The row of `run` that a line of a table tells.
fn varied(alloc: Global, table: &Row, line: &Line) -> Result<Row> {
    let Some((given, wanted)) = line.value.split_once(" => ") else {
        bail!("not a row `- GIVEN => WANTED`");
    };
    let mut lines = shared_lines(alloc, table)?;
    lines.push(line_told(alloc, table, "vary", "given", given)?)?;
    lines.push(line_told(alloc, table, "tell", "wanted", wanted)?)?;
    row_of(table.name.as_str(), alloc, lines)
}

fn row_of(name: &str, alloc: Global, lines: Vec<Line>) -> Result<Row> {
    let name = String::from_str(alloc, name)?;
    Ok(Row { name, lines })
}

/// The lines that all rows of the table have.
fn shared_lines(alloc: Global, table: &Row) -> Result<Vec<Line>> {
    let mut lines = Vec::new(alloc);
    'lines: for line in &table.lines {
        if line.key.as_str() != "-" {
            lines.push(line.copy()?)?;
        }
    }
    Ok(lines)
}

/// A line whose key the table tells by `key`, with the columns in the table's form.
fn line_told(alloc: Global, table: &Row, key: &str, form: &str, columns: &str) -> Result<Line> {
    let key = String::from_str(alloc, table.value(key))?;
    let value = filled(alloc, table.find(form), columns)?;
    Ok(Line {
        number: 0,
        key,
        value,
    })
}
