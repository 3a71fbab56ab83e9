use crate::line::Line;
use anyhow::{Context, Result, bail};
use std::alloc::Global;

/// A heading `KIND NAME: TEXT`, and the lines that are indented below it.
#[derive(Drop)]
pub struct Block {
    /// The number of the heading's line, from 1.
    pub number: u32,
    pub kind: String,
    pub name: String,
    pub text: String,
    pub lines: Vec<Line>,
}

impl Block {
    /// Adds to the text of the last line, or to the heading's where there is none.
    fn lengthen(&mut self, more: &str) -> Result<()> {
        match self.lines.last_mut() {
            Some(line) => line.value.push_str(more)?,
            None => self.text.push_str(more)?,
        }
        Ok(())
    }
}

/// The blocks of a file of rows. Empty lines and lines that begin with `#` are skipped.
pub fn blocks_of(alloc: Global, file: &str) -> Result<Vec<Block>> {
    let mut blocks = Vec::new(alloc);
    let mut number = 0u32;
    'lines: for line in file.lines() {
        number = number.saturating_add(1);
        take_line(alloc, &mut blocks, number, line).context(format_args!("line {number}"))?;
    }
    Ok(blocks)
}

fn take_line(alloc: Global, blocks: &mut Vec<Block>, number: u32, line: &str) -> Result<()> {
    let content = line.trim_start();
    if content.is_empty() || content.starts_with('#') {
        return Ok(());
    }
    if content.len() == line.len() {
        blocks.push(heading_of(alloc, number, content)?)?;
        return Ok(());
    }
    let Some(block) = blocks.last_mut() else {
        bail!("no heading stands above it");
    };
    if let Some(more) = content.strip_prefix('|') {
        return block.lengthen(more.strip_prefix(' ').unwrap_or(more));
    }
    block.lines.push(line_of(alloc, number, content)?)?;
    Ok(())
}

fn heading_of(alloc: Global, number: u32, content: &str) -> Result<Block> {
    let Some((kind, rest)) = content.split_once(' ') else {
        bail!("not a heading `KIND NAME: TEXT`");
    };
    let Some((name, text)) = rest.split_once(':') else {
        bail!("not a heading `KIND NAME: TEXT`");
    };
    Ok(Block {
        number,
        kind: String::from_str(alloc, kind)?,
        name: String::from_str(alloc, name)?,
        text: String::from_str(alloc, text.strip_prefix(' ').unwrap_or(text))?,
        lines: Vec::new(alloc),
    })
}

fn line_of(alloc: Global, number: u32, content: &str) -> Result<Line> {
    let (key, value) = match content.strip_prefix("- ") {
        Some(row) => ("-", row),
        None => match content.split_once(':') {
            Some((key, value)) => (key, value.strip_prefix(' ').unwrap_or(value)),
            None => bail!("not a line `KEY: VALUE`"),
        },
    };
    Ok(Line {
        number,
        key: String::from_str(alloc, key)?,
        value: String::from_str(alloc, value)?,
    })
}
