use anyhow::Result;
use dsv_outside::ServeEnd;
use row_files::{Book, Line, difference, expand, numbers_in};
use std::alloc::Global;

/// A connection that a row tells: what comes in, what must come out, and how it must end.
#[derive(Drop)]
pub struct Connection {
    pub name: String,
    pub input: Vec<u8>,
    pub source_fails: Vec<u64>,
    pub sink_fails: Vec<u64>,
    pub output: Vec<u8>,
    pub end: String,
}

/// A connection without input, output and faults.
pub fn connection_named(alloc: Global, name: &str) -> Result<Connection> {
    let name = String::from_str(alloc, name)?;
    let end = String::from_str(alloc, "ended")?;
    Ok(Connection {
        name,
        input: Vec::new(alloc),
        source_fails: Vec::new(alloc),
        sink_fails: Vec::new(alloc),
        output: Vec::new(alloc),
        end,
    })
}

/// Takes what a line tells of a connection. Other lines are of the whole row.
pub fn take_line(
    alloc: Global,
    book: &Book,
    connection: &mut Connection,
    line: &Line,
) -> Result<()> {
    let value = line.value.as_str();
    match line.key.as_str() {
        "in" => connection.input = expand(alloc, book, value)?,
        "out" => connection.output = expand(alloc, book, value)?,
        "source fails" => connection.source_fails = numbers_in(alloc, value)?,
        "sink fails" => connection.sink_fails = numbers_in(alloc, value)?,
        "end" => connection.end = line.value.clone()?,
        _ => {}
    }
    Ok(())
}

/// Where a connection's output or end is another than the row tells, if anywhere.
pub fn served_otherwise(
    alloc: Global,
    connection: &Connection,
    output: &[u8],
    end: &str,
) -> Result<Option<String>> {
    let part = connection.name.as_str();
    let found = difference(alloc, part, connection.output.as_slice(), output)?;
    if found.is_some() {
        return Ok(found);
    }
    difference(alloc, part, connection.end.as_bytes(), end.as_bytes())
}

/// The word for an end.
pub fn end_word(end: ServeEnd) -> &'static str {
    match end {
        ServeEnd::Ended => "ended",
        ServeEnd::Closed => "closed",
        ServeEnd::BrokeOff => "broke off",
        ServeEnd::ReadFault => "read fault",
        ServeEnd::WriteFault => "write fault",
        ServeEnd::NoMemory => "no memory",
    }
}
