use crate::book::Book;
use crate::expansion::expand;
use crate::numbers::revision_in;
use crate::row::Row;
use anyhow::Result;
use dsv_base::{Path, Rev};
use std::alloc::Global;

/// What a row of a table gives: its columns, and the lines of the table.
#[derive(Drop)]
pub struct Given<'a> {
    pub alloc: Global,
    book: &'a Book,
    table: &'a Row,
    texts: Vec<&'a str>,
    columns: Vec<Vec<u8>>,
}

impl<'a> Given<'a> {
    /// The columns of a text, which stand apart by ` | `.
    pub fn of(alloc: Global, book: &'a Book, table: &'a Row, text: &'a str) -> Result<Given<'a>> {
        let texts: Vec<&str> = text.split(" | ").collect(alloc)?;
        let columns = expanded(alloc, book, texts.as_slice())?;
        Ok(Given {
            alloc,
            book,
            table,
            texts,
            columns,
        })
    }

    /// The bytes that each column stands for.
    pub fn columns(&self) -> &[Vec<u8>] {
        self.columns.as_slice()
    }

    /// The bytes that a column stands for; nothing where the row has none there.
    pub fn bytes(&self, at: usize) -> &[u8] {
        match self.columns.get(at) {
            Some(column) => column.as_slice(),
            None => b"",
        }
    }

    /// A column as the row writes it; nothing where the row has none there.
    pub fn text(&self, at: usize) -> &'a str {
        match self.texts.get(at) {
            Some(text) => *text,
            None => "",
        }
    }

    /// The number that a column is.
    pub fn number(&self, at: usize) -> Option<u64> {
        self.text(at).parse::<u64>().ok()
    }

    /// The revision that a column is.
    pub fn revision(&self, at: usize) -> Option<Rev> {
        revision_in(self.text(at))
    }

    /// The path that a column stands for.
    pub fn path(&self, at: usize) -> Option<Path> {
        Path::parse(self.alloc, self.bytes(at)).ok()
    }

    /// The bytes that a line of the table stands for.
    pub fn setting(&self, key: &str) -> Option<Vec<u8>> {
        self.table.bytes(self.alloc, self.book, key).ok()
    }
}

fn expanded(alloc: Global, book: &Book, texts: &[&str]) -> Result<Vec<Vec<u8>>> {
    let mut columns = Vec::new(alloc);
    'texts: for text in texts {
        columns.push(expand(alloc, book, text)?)?;
    }
    Ok(columns)
}
