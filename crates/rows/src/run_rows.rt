use crate::cut::{CutSource, Cutting};
use anyhow::{Result, bail};
use davsvn_run::{Status, World, run};
use dsv_base::{Bytes, Rev, decimal_text};
use dsv_outside::{MemClock, MemFiles, MemKeeper, MemSink, MemSource};
use row_files::{Answer, Book, Line, Row, difference, expand};
use row_texts::moments_in;
use std::alloc::Global;

type MemWorld = World<CutSource, MemSink, MemSink, MemClock, MemFiles, MemKeeper>;

/// Where a row of `run` differs, if anywhere: run with its input whole, then byte by byte, and cut at
/// every place where it asks for that.
pub fn check_run(alloc: Global, book: &Book, row: &Row) -> Result<Option<String>> {
    let input = row.bytes(alloc, book, "in")?;
    'cuttings: for cutting in cuttings_of(alloc, row, input.len())? {
        let difference = check_once(alloc, book, row, input.as_slice(), cutting)?;
        if difference.is_some() {
            return Ok(difference);
        }
    }
    Ok(None)
}

/// How the input of so many bytes is cut, one time after another.
pub fn cuttings_of(alloc: Global, row: &Row, length: usize) -> Result<Vec<Cutting>> {
    let mut cuttings = vec![in alloc; Cutting::WHOLE]?;
    let how = row.value("cut");
    if how == "never" || row.find("source fails").is_some() {
        return Ok(cuttings);
    }
    cuttings.push(Cutting::BYTES)?;
    if how == "everywhere" {
        for first in 1..length {
            cuttings.push(Cutting {
                first,
                later: usize::MAX,
            })?;
        }
    } else if !how.is_empty() {
        bail!("no such way to cut: {how}");
    }
    Ok(cuttings)
}

fn check_once(
    alloc: Global,
    book: &Book,
    row: &Row,
    input: &[u8],
    cutting: Cutting,
) -> Result<Option<String>> {
    let words = words_of(alloc, book, row.value("words"))?;
    let world = world_of(alloc, book, row, input, cutting)?;
    let (status, after) = run(alloc, words.as_slice(), world);
    differs(alloc, book, row, status, &after)
}

/// Words with one blank between; an empty text has none.
pub fn words_of(alloc: Global, book: &Book, text: &str) -> Result<Vec<Bytes>> {
    let mut words = Vec::new(alloc);
    if text.is_empty() {
        return Ok(words);
    }
    for word in text.split(' ') {
        words.push(Bytes::from_vec(expand(alloc, book, word)?))?;
    }
    Ok(words)
}

fn world_of(
    alloc: Global,
    book: &Book,
    row: &Row,
    input: &[u8],
    cutting: Cutting,
) -> Result<MemWorld> {
    let (sink, errors) = sinks_of(alloc, row)?;
    let (clock, keeper) = clock_and_keeper_of(alloc, row)?;
    let (source, files) = source_and_files_of(alloc, book, row, input)?;
    Ok(World {
        source: CutSource { source, cutting },
        sink,
        errors,
        clock,
        files,
        keeper,
    })
}

fn sinks_of(alloc: Global, row: &Row) -> Result<(MemSink, MemSink)> {
    let sink = sink_of(alloc, row, "sink fails")?;
    let errors = sink_of(alloc, row, "errors fail")?;
    Ok((sink, errors))
}

fn clock_and_keeper_of(alloc: Global, row: &Row) -> Result<(MemClock, MemKeeper)> {
    let clock = clock_of(alloc, row)?;
    let keeper = keeper_of(alloc, row)?;
    Ok((clock, keeper))
}

fn source_and_files_of(
    alloc: Global,
    book: &Book,
    row: &Row,
    input: &[u8],
) -> Result<(MemSource, MemFiles)> {
    let source = source_of(alloc, input, row.numbers(alloc, "source fails")?)?;
    let files = files_of(alloc, book, row)?;
    Ok((source, files))
}

/// A source of these bytes, which fails at the calls of these numbers.
pub fn source_of(alloc: Global, input: &[u8], failing: Vec<u64>) -> Result<MemSource> {
    let bytes = Bytes::of(alloc, input)?;
    Ok(MemSource::new(bytes, failing))
}

pub fn sink_of(alloc: Global, row: &Row, fails: &str) -> Result<MemSink> {
    Ok(MemSink::new(Vec::new(alloc), row.numbers(alloc, fails)?))
}

/// A clock of the moments that the row tells.
pub fn clock_of(alloc: Global, row: &Row) -> Result<MemClock> {
    Ok(MemClock::new(moments_in(alloc, row.value("clock"))?))
}

/// A keeper that has kept nothing.
pub fn keeper_of(alloc: Global, row: &Row) -> Result<MemKeeper> {
    let failing = row.numbers(alloc, "keeper fails")?;
    Ok(MemKeeper::new(Vec::new(alloc), failing))
}

/// The files that the row tells: a line `file NAME: TEXT` makes one, and `no file: NAME` takes it away.
pub fn files_of(alloc: Global, book: &Book, row: &Row) -> Result<MemFiles> {
    let failing = row.numbers(alloc, "files fail")?;
    let contents = contents_of(alloc, book, row)?;
    Ok(MemFiles::new(contents, failing))
}

fn contents_of(alloc: Global, book: &Book, row: &Row) -> Result<Vec<(Bytes, Bytes)>> {
    let mut files = Vec::new(alloc);
    'lines: for line in &row.lines {
        take_file(alloc, book, &mut files, line)?;
    }
    Ok(files)
}

/// Makes the file that a line tells, or takes it away. Other lines tell none.
fn take_file(
    alloc: Global,
    book: &Book,
    files: &mut Vec<(Bytes, Bytes)>,
    line: &Line,
) -> Result<()> {
    match line.key.strip_prefix("file ") {
        Some(name) => {
            remove_file(files, name.as_bytes());
            files.push(file_of(alloc, book, name, line.value.as_str())?)?;
        }
        None if line.key.as_str() == "no file" => remove_file(files, line.value.as_bytes()),
        None => {}
    }
    Ok(())
}

fn file_of(alloc: Global, book: &Book, name: &str, text: &str) -> Result<(Bytes, Bytes)> {
    let name = Bytes::of(alloc, name.as_bytes())?;
    let text = expand(alloc, book, text)?;
    Ok((name, Bytes::from_vec(text)))
}

fn remove_file(files: &mut Vec<(Bytes, Bytes)>, name: &[u8]) {
    files.retain(|file| file.0.get() != name);
}

/// Where a run ended otherwise than the row tells, if anywhere.
fn differs(
    alloc: Global,
    book: &Book,
    row: &Row,
    status: Status,
    after: &MemWorld,
) -> Result<Option<String>> {
    let found = status_differs(alloc, row, status)?;
    if found.is_some() {
        return Ok(found);
    }
    let found = texts_differ(alloc, book, row, after)?;
    if found.is_some() {
        return Ok(found);
    }
    kept_differs(alloc, book, row, after.keeper.kept())
}

pub fn status_differs(alloc: Global, row: &Row, status: Status) -> Result<Option<String>> {
    let came = decimal_text(alloc, u64::from(status.0))?;
    let wanted = row.find("status").unwrap_or("0");
    difference(alloc, "status", wanted.as_bytes(), came.get())
}

fn texts_differ(alloc: Global, book: &Book, row: &Row, after: &MemWorld) -> Result<Option<String>> {
    let found = text_differs(alloc, book, row, "out", after.sink.taken())?;
    if found.is_some() {
        return Ok(found);
    }
    text_differs(alloc, book, row, "line", after.errors.taken())
}

pub fn text_differs(
    alloc: Global,
    book: &Book,
    row: &Row,
    key: &str,
    came: &[u8],
) -> Result<Option<String>> {
    let wanted = row.bytes(alloc, book, key)?;
    difference(alloc, key, wanted.as_slice(), came)
}

/// Where other texts were kept than the lines `kept: N TEXT` of the row tell, if anywhere.
pub fn kept_differs(
    alloc: Global,
    book: &Book,
    row: &Row,
    kept: &[(Rev, Bytes)],
) -> Result<Option<String>> {
    let wanted = kept_wanted(alloc, book, row)?;
    let mut came = Answer::new(alloc);
    put_kept(kept, &mut came);
    match came.end() {
        Some(came) => difference(alloc, "kept", wanted.as_slice(), came.as_slice()),
        None => bail!("no memory"),
    }
}

fn kept_wanted(alloc: Global, book: &Book, row: &Row) -> Result<Vec<u8>> {
    let mut wanted = Vec::new(alloc);
    'lines: for line in &row.lines {
        if line.key.as_str() == "kept" {
            add_kept(alloc, book, &mut wanted, line.value.as_str())?;
        }
    }
    Ok(wanted)
}

fn add_kept(alloc: Global, book: &Book, wanted: &mut Vec<u8>, text: &str) -> Result<()> {
    let bytes = expand(alloc, book, text)?;
    wanted.extend_from_slice(bytes.as_slice())?;
    wanted.push(b'\n')?;
    Ok(())
}

fn put_kept(kept: &[(Rev, Bytes)], out: &mut Answer) {
    'kept: for (number, text) in kept {
        out.put_number(u64::from(number.get()));
        out.put(b" ");
        out.put(text.get());
        out.put(b"\n");
    }
}
