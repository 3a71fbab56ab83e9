ghost use Rattle.std.specs.Prelude.{◌≡◌, ◌↔◌, IsTrue, false, None};
ghost use Rattle.std.specs.Str.{is_utf8};
ghost use Rattle.std.specs.IoError.{error_kind};
ghost use Rattle.dsv_outside.specs.Causes.{HasCause, count_after};
ghost use Rattle.dsv_outside.specs.Reads.{FileGives, is_failed_file};

use dsv_base::Bytes;
use dsv_outside::{FileGot, Files};
use std::io::{ErrorKind, Read};
use std::marker::Model;
use std::{fs, io};

/// The most bytes of a file that is read.
const MOST_FILE_BYTES: u64 = 268_435_456;

/// The files of the system, by the text of their path. They tell nothing of what they hold, since
/// others may change it. Contracts see the count of faults: each read that failed is one.
#[derive(Drop)]
pub struct DiskFiles<R> {
    rt: R,
    faults: u64,
}

impl<R> Model for DiskFiles<R> {
    ghost use Rattle.std.specs.Prelude.{ℕ};

    ghost Value = { ℕ };

    ghost view = { λ f. f.faults };
}

impl<R> DiskFiles<R> {
    /// The files that `rt` reaches.
    pub fn new(rt: R) -> DiskFiles<R>
        ensures { result ≡ 0 }
    {
        DiskFiles { rt, faults: 0 }
    }
}

impl<R: std::rt::Files + AllocGlobal> Files for DiskFiles<R> {
    ghost contents = { λ _. None };

    ghost faults = { λ f. f };

    /// Reads the whole file. It fails where the name is no text, nothing stands there, it can't be
    /// read to its end, or it has more than 268,435,456 bytes.
    fn read(&mut self, name: &[u8]) -> FileGot
        ensures bytes { FileGives None name.now result }
        ensures cause { HasCause self.old self.new (is_failed_file result) }
        ensures text { is_utf8 name.now ≡ false → result ≡ FileGot.Failed }
        ensures faults { self.new ≡ count_after (is_failed_file result) self.old }
    {
        let got = read_name(&self.rt, name);
        if let FileGot::Failed = got {
            self.faults = self.faults.saturating_add(1);
        }
        got
    }
}

fn read_name<R: std::rt::Files + AllocGlobal>(rt: &R, name: &[u8]) -> FileGot
    ensures bytes { FileGives None name.now result }
    ensures text { is_utf8 name.now ≡ false → result ≡ FileGot.Failed }
{
    match std::str::from_utf8(name) {
        Ok(path) => read_path(rt, path),
        Err(_) => FileGot::Failed,
    }
}

fn read_path<R: std::rt::Files + AllocGlobal>(rt: &R, path: &str) -> FileGot
    ensures { FileGives None path.now result }
{
    let file = match fs::open(rt, path) {
        Ok(file) => file,
        Err(e) if wants_memory(&e) => return FileGot::NoMemory,
        Err(_) => return FileGot::Failed,
    };
    // one byte more than may be shows that there are too many
    let mut bytes = Vec::new(rt.alloc());
    match file.take(MOST_FILE_BYTES + 1).read_to_end(&mut bytes) {
        Ok(_) => {}
        Err(e) if wants_memory(&e) => return FileGot::NoMemory,
        Err(_) => return FileGot::Failed,
    }
    if bytes.len() as u64 > MOST_FILE_BYTES {
        return FileGot::Failed;
    }
    FileGot::Bytes(Bytes::from_vec(bytes))
}

pub fn wants_memory(error: &io::Error) -> bool
    ensures { IsTrue result ↔ (error_kind error.now ≡ ErrorKind.OutOfMemory) }
{
    error.kind() == ErrorKind::OutOfMemory
}
