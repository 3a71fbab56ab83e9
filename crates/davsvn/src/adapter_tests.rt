use crate::disk_files::DiskFiles;
use crate::reading::Reading;
use crate::script_keeper::ScriptKeeper;
use crate::system_clock::SystemClock;
use crate::writing::Writing;
use dsv_base::{Bytes, Rev};
use dsv_outside::{Clock, FileGot, Files, Got, Keeper, Put, Sink, Source};
use std::fs;
use std::process::Abort;
use std::test::Fail;

fn check_read<S: Source, R: Abort>(rt: &R, source: &mut S, answer: Got, bytes: &[u8]) {
    let mut room = [0u8; 3];
    let got = source.read(&mut room);
    assert_eq!(rt; got, answer);
    if let Got::Bytes(count) = got {
        assert_eq!(rt; &room[..count], bytes);
    }
}

#[test]
fn reading_a_file(rt: HostRuntime) -> Result<(), Fail> {
    fs::write(&rt, "reading", "hello")?;
    let mut source = Reading::new(fs::open(&rt, "reading")?);
    check_read(&rt, &mut source, Got::Bytes(3), b"hel");
    check_read(&rt, &mut source, Got::Bytes(2), b"lo");
    check_read(&rt, &mut source, Got::End, b"");
    check_read(&rt, &mut source, Got::End, b"");
    // a folder can be opened, and not be read
    let mut source = Reading::new(fs::open(&rt, ".")?);
    check_read(&rt, &mut source, Got::Failed, b"");
    fs::remove_file(&rt, "reading")?;
    Ok(())
}

#[test]
fn writing_a_file(rt: HostRuntime) -> Result<(), Fail> {
    let mut sink = Writing::new(fs::create(&rt, "writing")?);
    for bytes in [b"hel", b"lo!"] {
        assert_eq!(rt; sink.put(bytes), Put::Done);
    }
    assert_eq!(rt; fs::read_to_string(&rt, "writing")?.as_str(), "hello!");
    // what was opened to be read can't be written
    let mut sink = Writing::new(fs::open(&rt, "writing")?);
    assert_eq!(rt; sink.put(b"more"), Put::Failed);
    fs::remove_file(&rt, "writing")?;
    Ok(())
}

#[test]
fn writing_to_the_errors(rt: HostRuntime) {
    let mut errors = Writing::new(rt.stderr());
    assert_eq!(rt; errors.put(b"a line to the errors\n"), Put::Done);
}

fn check_file<F: Files, R: Abort>(rt: &R, files: &mut F, name: &[u8], text: Option<&[u8]>) {
    match files.read(name) {
        FileGot::Bytes(bytes) => assert_eq!(rt; Some(bytes.get()), text),
        FileGot::Failed => assert!(rt; text.is_none()),
        FileGot::NoMemory => assert!(rt; false),
    }
}

/// Reads the file `file`, a file that is missing, a folder, and two names that no file can have.
fn check_files<R: Abort + std::rt::Files + AllocGlobal + Drop>(rt: &R, files: R) {
    let mut files = DiskFiles::new(files);
    check_file(rt, &mut files, b"file", Some(b"hello"));
    let missing: [&[u8]; 4] = [b"none", b".", b"fi\0le", b"\xff"];
    for name in missing {
        check_file(rt, &mut files, name, None);
    }
}

#[test]
fn files_of_the_system(rt: HostRuntime) -> Result<(), Fail> {
    fs::write(&rt, "file", "hello")?;
    check_files(&rt, rt.clone()?);
    fs::remove_file(&rt, "file")?;
    Ok(())
}

/// The first microsecond of 2020.
const YEAR_2020: u64 = 1_577_836_800_000_000;

#[test]
fn the_clock_of_the_system(rt: HostRuntime) -> Result<(), Fail> {
    let mut clock = SystemClock::new(rt.clone()?);
    assert!(rt; clock.now().get() > YEAR_2020);
    Ok(())
}

/// Keeps two texts in the file `kept`, and one in a file that isn't there.
fn check_keeper<R: Abort + std::rt::Files + AllocGlobal + Drop>(
    rt: &R,
    files: R,
    others: R,
) -> Result<(), Fail> {
    let number = Rev::of(1).ok_or("a revision")?;
    let name = Bytes::of(rt.alloc(), b"kept").ok().ok_or("no memory")?;
    let mut keeper = ScriptKeeper::new(files, name);
    for text in [b"one", b"two"] {
        assert_eq!(rt; keeper.keep(number, text), Put::Done);
    }
    let name = Bytes::of(rt.alloc(), b"none").ok().ok_or("no memory")?;
    let mut keeper = ScriptKeeper::new(others, name);
    assert_eq!(rt; keeper.keep(number, b"three"), Put::Failed);
    Ok(())
}

#[test]
fn keeping_in_a_file(rt: HostRuntime) -> Result<(), Fail> {
    fs::write(&rt, "kept", "zero ")?;
    check_keeper(&rt, rt.clone()?, rt.clone()?)?;
    assert_eq!(rt; fs::read_to_string(&rt, "kept")?.as_str(), "zero onetwo");
    fs::remove_file(&rt, "kept")?;
    Ok(())
}
