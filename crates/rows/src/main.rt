//! Runs every row of the project: what comes in, and what must come out. The rows stand in files that a
//! person reads and writes (README.md), whose names are the words of the command line.
#![tactic(auto)]

mod checking;
mod connections;
mod cut;
mod run_rows;
mod run_tables;
mod serve_rows;
mod tables;
mod talks;

use anyhow::{Context, Result};
use row_files::{Book, Report};
use std::process::ExitCode;
use std::{env, fs};

/// Reads the files that the words name.
fn read_book<R: std::rt::Files + std::rt::Env + AllocGlobal>(rt: &R) -> Result<Book> {
    let mut book = Book::new(rt.alloc());
    let mut words = env::args(rt)?;
    let _ = words.next();
    for name in words {
        let bytes = fs::read(rt, name.as_str()).context(format_args!("reading {name}"))?;
        book.add(name, bytes)?;
    }
    Ok(book)
}

fn print_report<R: Print>(rt: &R, report: &Report) -> Result<()> {
    for fault in report.faults() {
        println!(rt; "{fault}")?;
    }
    let held = report.held();
    match report.faults().len() {
        0 => println!(rt; "{held} rows hold")?,
        failed => println!(rt; "{held} rows hold and {failed} don't")?,
    }
    Ok(())
}

fn main(rt: HostRuntime) -> Result<ExitCode> {
    let mut book = read_book(&rt)?;
    let report = checking::check_all(&rt, rt.alloc(), &mut book)?;
    print_report(&rt, &report)?;
    if report.faults().is_empty() {
        Ok(ExitCode::SUCCESS)
    } else {
        Ok(ExitCode::FAILURE)
    }
}
