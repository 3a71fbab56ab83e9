use dsv_base::Bytes;
use dsv_outside::{Got, MemSink, MemSource, Put, Sink, Source};
use row_files::{Answer, Given, numbers_in};

/// How a call ended.
pub fn word_of(put: Put) -> &'static [u8] {
    match put {
        Put::Done => b"done",
        Put::Failed => b"failed",
        Put::NoMemory => b"no memory",
    }
}

/// Bytes, the calls that fail, and how many reads there are, each with room for three bytes.
pub fn put_source(given: &Given<'_>, out: &mut Answer) {
    match (source_of(given), given.number(2)) {
        (Some(mut source), Some(reads)) => put_reads(&mut source, reads, out),
        _ => out.give_up(),
    }
}

fn source_of(given: &Given<'_>) -> Option<MemSource> {
    let failing = numbers_in(given.alloc, given.text(1)).ok()?;
    let bytes = Bytes::of(given.alloc, given.bytes(0)).ok()?;
    Some(MemSource::new(bytes, failing))
}

fn put_reads(source: &mut MemSource, reads: u64, out: &mut Answer) {
    'reads: for _ in 0..reads {
        put_read(source, out);
    }
}

fn put_read(source: &mut MemSource, out: &mut Answer) {
    let mut room = [0u8; 3];
    match source.read(&mut room) {
        Got::Bytes(count) => out.put_item(&room[..count.min(3)]),
        Got::End => out.put_item(b"end"),
        Got::Failed => out.put_item(b"failed"),
    }
}

/// The bytes that were taken, the calls that fail, and what is put.
pub fn put_sink(given: &Given<'_>, out: &mut Answer) {
    match sink_of(given) {
        Some(mut sink) => put_puts(&mut sink, given.text(2), out),
        None => out.give_up(),
    }
}

fn sink_of(given: &Given<'_>) -> Option<MemSink> {
    let failing = numbers_in(given.alloc, given.text(1)).ok()?;
    let taken = Vec::from_slice(given.alloc, given.bytes(0)).ok()?;
    Some(MemSink::new(taken, failing))
}

fn put_puts(sink: &mut MemSink, texts: &str, out: &mut Answer) {
    'texts: for text in texts.split(", ") {
        out.put_item(word_of(sink.put(text.as_bytes())));
    }
    out.put(b" | ");
    out.put(sink.taken());
}
