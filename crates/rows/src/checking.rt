use crate::run_rows::check_run;
use crate::serve_rows::check_serve;
use crate::tables::{About, check_table};
use crate::talks::check_talk;
use anyhow::{Context, Result, bail};
use row_files::{Block, Book, Report, Row, blocks_of, expand};
use std::alloc::Global;
use std::sync::Wait;
use std::thread::Threads;

/// Checks the rows of each file of the book whose name begins with `rows`, in turn.
pub fn check_all<R: Threads + Wait + Sync + Send + Clone + Drop>(
    rt: &R,
    alloc: Global,
    book: &mut Book,
) -> Result<Report> {
    let mut report = Report::new(alloc);
    let mut rows = Vec::new(alloc);
    let names = book.row_files(alloc)?;
    'files: for name in &names {
        report.enter(name.clone()?);
        check_file(rt, alloc, book, &mut rows, &mut report, name.as_str()).context(format_args!(
            "{name}"
        ))?;
    }
    Ok(report)
}

fn check_file<R: Threads + Wait + Sync + Send + Clone + Drop>(
    rt: &R,
    alloc: Global,
    book: &mut Book,
    rows: &mut Vec<Row>,
    report: &mut Report,
    name: &str,
) -> Result<()> {
    'blocks: for block in blocks_in(alloc, book, name)? {
        let number = block.number;
        check_block(rt, alloc, book, rows, report, block).context(format_args!(
            "the heading of line {number}"
        ))?;
    }
    Ok(())
}

fn blocks_in(alloc: Global, book: &Book, name: &str) -> Result<Vec<Block>> {
    let bytes = book.find(name).unwrap_or(b"");
    blocks_of(alloc, std::str::from_utf8(bytes)?)
}

/// Checks what a block tells, over the rows that stand above it, and keeps it for those below.
fn check_block<R: Threads + Wait + Sync + Send + Clone + Drop>(
    rt: &R,
    alloc: Global,
    book: &mut Book,
    rows: &mut Vec<Row>,
    report: &mut Report,
    block: Block,
) -> Result<()> {
    if block.kind.as_str() == "text" {
        return add_text(alloc, book, block);
    }
    let kind = block.kind.clone()?;
    let row = Row::of(alloc, rows.as_slice(), block)?;
    check_row(rt, alloc, book, kind.as_str(), &row, report)?;
    rows.push(row)?;
    Ok(())
}

fn add_text(alloc: Global, book: &mut Book, block: Block) -> Result<()> {
    let bytes = expand(alloc, book, block.text.as_str())?;
    book.add(block.name, bytes)
}

fn check_row<R: Threads + Wait + Sync + Send + Clone + Drop>(
    rt: &R,
    alloc: Global,
    book: &Book,
    kind: &str,
    row: &Row,
    report: &mut Report,
) -> Result<()> {
    match kind {
        "setting" => Ok(()),
        "run" => report.count(row.name.as_str(), check_run(alloc, book, row)?),
        "serve" => report.count(row.name.as_str(), check_serve(rt, alloc, book, row)?),
        "talk" => report.count(row.name.as_str(), check_talk(alloc, book, row)?),
        "runs" => check_table(alloc, book, About::Run, row, report),
        "table" => check_table(alloc, book, About::Call, row, report),
        _ => bail!("no such kind: {kind}"),
    }
}
