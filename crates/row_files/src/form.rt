use anyhow::{Result, bail};
use std::alloc::Global;

/// A form with the columns in it, where `$1` to `$9` stand; without a form the columns themselves.
pub fn filled(alloc: Global, form: Option<&str>, columns: &str) -> Result<String> {
    match form {
        Some(form) => put_together(alloc, form, columns),
        None => Ok(String::from_str(alloc, columns)?),
    }
}

fn put_together(alloc: Global, form: &str, columns: &str) -> Result<String> {
    let mut text = String::new(alloc);
    for (place, part) in form.split('$').enumerate() {
        put_part(&mut text, columns, place, part)?;
    }
    Ok(text)
}

/// Writes a part of a form: the first one, or one that stood behind `$`.
fn put_part(text: &mut String, columns: &str, place: usize, part: &str) -> Result<()> {
    if place == 0 {
        return Ok(text.push_str(part)?);
    }
    let mut letters = part.chars();
    match number_of(letters.next()) {
        Some(number) => {
            text.push_str(column_of(columns, number)?)?;
            Ok(text.push_str(letters.as_str())?)
        }
        None => {
            text.push('$')?;
            Ok(text.push_str(part)?)
        }
    }
}

/// The number of a column, from 1.
fn number_of(letter: Option<char>) -> Option<usize> {
    match letter?.to_digit(10)? {
        0 => None,
        number => Some(number as usize),
    }
}

fn column_of(columns: &str, number: usize) -> Result<&str> {
    match columns.split(" | ").nth(number.saturating_sub(1)) {
        Some(column) => Ok(column),
        None => bail!("the row has no column {number}"),
    }
}
