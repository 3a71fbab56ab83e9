use crate::streams::{put_sink, put_source, word_of};
use anyhow::{Result, bail};
use dsv_base::{Bytes, Moment, Rev};
use dsv_outside::{Clock, FileGot, Files, Keeper, MemClock, MemFiles, MemKeeper};
use row_files::{Answer, Given, numbers_in};
use std::alloc::Global;

/// The tables on the objects in memory. Calls that fail are told by their numbers, from 0.
#[derive(Clone, Copy)]
pub enum ObjectTable {
    Source,
    Sink,
    Files,
    Clock,
    Keeper,
}

/// Answers a row of such a table.
pub fn answer_object(table: ObjectTable, given: &Given<'_>, out: &mut Answer) {
    match table {
        ObjectTable::Source => put_source(given, out),
        ObjectTable::Sink => put_sink(given, out),
        ObjectTable::Files => put_files(given, out),
        ObjectTable::Clock => put_clock(given, out),
        ObjectTable::Keeper => put_keeper(given, out),
    }
}

/// Files by name and text, the calls that fail, and the names that are read.
fn put_files(given: &Given<'_>, out: &mut Answer) {
    match files_of(given) {
        Some(mut files) => put_texts(&mut files, given.text(2), out),
        None => out.give_up(),
    }
}

fn files_of(given: &Given<'_>) -> Option<MemFiles> {
    let failing = numbers_in(given.alloc, given.text(1)).ok()?;
    let contents = contents_of(given.alloc, given.text(0)).ok()?;
    Some(MemFiles::new(contents, failing))
}

fn contents_of(alloc: Global, texts: &str) -> Result<Vec<(Bytes, Bytes)>> {
    let mut contents = Vec::new(alloc);
    'texts: for text in texts.split(", ") {
        contents.push(file_of(alloc, text)?)?;
    }
    Ok(contents)
}

fn file_of(alloc: Global, words: &str) -> Result<(Bytes, Bytes)> {
    let (name, text) = words.split_once(' ').unwrap_or((words, ""));
    let name = Bytes::of(alloc, name.as_bytes())?;
    let text = Bytes::of(alloc, text.as_bytes())?;
    Ok((name, text))
}

fn put_texts(files: &mut MemFiles, names: &str, out: &mut Answer) {
    'names: for name in names.split(", ") {
        match files.read(name.as_bytes()) {
            FileGot::Bytes(text) => out.put_item(text.get()),
            FileGot::Failed => out.put_item(b"failed"),
            FileGot::NoMemory => out.put_item(b"no memory"),
        }
    }
}

/// The moments, and how many times the clock is read.
fn put_clock(given: &Given<'_>, out: &mut Answer) {
    match (moments_in(given.alloc, given.text(0)), given.number(1)) {
        (Ok(moments), Some(readings)) => put_readings(MemClock::new(moments), readings, out),
        _ => out.give_up(),
    }
}

/// The moments of these numbers of microseconds, with blanks between them; `none` is no moment.
pub fn moments_in(alloc: Global, text: &str) -> Result<Vec<Moment>> {
    let mut moments = Vec::new(alloc);
    'moments: for micros in numbers_in(alloc, text)? {
        match Moment::of(micros) {
            Some(moment) => moments.push(moment)?,
            None => bail!("no moment: {micros}"),
        }
    }
    Ok(moments)
}

fn put_readings(mut clock: MemClock, readings: u64, out: &mut Answer) {
    'readings: for place in 0..readings {
        if place > 0 {
            out.put(b", ");
        }
        out.put_number(clock.now().get());
    }
}

/// The calls that fail, and the numbers and texts that are kept.
fn put_keeper(given: &Given<'_>, out: &mut Answer) {
    match numbers_in(given.alloc, given.text(0)) {
        Ok(failing) => {
            let mut keeper = MemKeeper::new(Vec::new(given.alloc), failing);
            put_keeps(&mut keeper, given.text(1), out);
        }
        Err(_) => out.give_up(),
    }
}

fn put_keeps(keeper: &mut MemKeeper, texts: &str, out: &mut Answer) {
    'texts: for text in texts.split(", ") {
        put_keep(keeper, text, out);
    }
    out.put(b" |");
    put_kept(keeper.kept(), out);
}

fn put_kept(kept: &[(Rev, Bytes)], out: &mut Answer) {
    'kept: for (number, text) in kept {
        out.put(b" ");
        out.put_number(u64::from(number.get()));
        out.put(b" ");
        out.put(text.get());
    }
}

fn put_keep(keeper: &mut MemKeeper, words: &str, out: &mut Answer) {
    let (number, text) = words.split_once(' ').unwrap_or((words, ""));
    match number
        .parse::<u32>()
        .ok()
        .and_then(|number| Rev::of(number))
    {
        Some(number) => out.put_item(word_of(keeper.keep(number, text.as_bytes()))),
        None => out.give_up(),
    }
}
