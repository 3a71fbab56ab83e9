use crate::block::Block;
use crate::book::Book;
use crate::expansion::expand;
use crate::line::Line;
use crate::numbers::numbers_in;
use anyhow::{Context, Result, bail};
use std::alloc::Global;

/// A row with all its lines: those of the row that it is as, and then its own. Where a key stands
/// twice, the last line counts.
#[derive(Drop)]
pub struct Row {
    pub name: String,
    pub lines: Vec<Line>,
}

impl Row {
    /// The row of a block, over the rows that stand above it.
    pub fn of(alloc: Global, above: &[Row], block: Block) -> Result<Row> {
        let Block { name, lines, .. } = block;
        let mut all = Vec::new(alloc);
        for line in lines {
            if line.key.as_str() == "as" {
                add_lines(&mut all, above, line.value.as_str())?;
            } else {
                all.push(line)?;
            }
        }
        Ok(Row { name, lines: all })
    }

    /// The value of this key, if the row has it.
    pub fn find(&self, key: &str) -> Option<&str> {
        let mut found = None;
        for line in &self.lines {
            if line.key.as_str() == key {
                found = Some(line.value.as_str());
            }
        }
        found
    }

    /// The value of this key; nothing where the row doesn't have it.
    pub fn value(&self, key: &str) -> &str {
        self.find(key).unwrap_or("")
    }

    /// The bytes that the value of this key stands for.
    pub fn bytes(&self, alloc: Global, book: &Book, key: &str) -> Result<Vec<u8>> {
        expand(alloc, book, self.value(key)).context(format_args!("{key}"))
    }

    /// The numbers of this key's value, with blanks between them.
    pub fn numbers(&self, alloc: Global, key: &str) -> Result<Vec<u64>> {
        numbers_in(alloc, self.value(key)).context(format_args!("{key}"))
    }
}

fn add_lines(all: &mut Vec<Line>, above: &[Row], name: &str) -> Result<()> {
    let mut known = false;
    for row in above {
        if row.name.as_str() == name {
            known = true;
            for line in &row.lines {
                all.push(line.copy()?)?;
            }
        }
    }
    if !known {
        bail!("no row {name} stands above");
    }
    Ok(())
}
