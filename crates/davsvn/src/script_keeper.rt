ghost use Rattle.std.specs.Prelude.{◌≡◌, None};
ghost use Rattle.dsv_outside.specs.Causes.{HasCause, count_after};
ghost use Rattle.dsv_outside.specs.Keepers.{kept_after};
ghost use Rattle.dsv_outside.specs.Sinks.{is_failed_put};

use dsv_base::{Bytes, Rev};
use dsv_outside::{Keeper, Put};
use std::fs::{OpenFile, OpenOptions};
use std::io;
use std::io::Write;
use std::marker::Model;

/// The script file as the keeper of new revisions: each is appended to it, so that the file goes on
/// being the script of the repository. It tells nothing of what it has kept, since others may change
/// the file. Contracts see the count of faults: each text that couldn't be kept is one.
#[derive(Drop)]
pub struct ScriptKeeper<R> {
    rt: R,
    name: Bytes,
    faults: u64,
}

impl<R> Model for ScriptKeeper<R> {
    ghost use Rattle.std.specs.Prelude.{ℕ};

    ghost Value = { ℕ };

    ghost view = { λ k. k.faults };
}

impl<R> ScriptKeeper<R> {
    /// The script file of this name, which `rt` reaches.
    pub fn new(rt: R, name: Bytes) -> ScriptKeeper<R>
        ensures { result ≡ 0 }
    {
        ScriptKeeper {
            rt,
            name,
            faults: 0,
        }
    }
}

impl<R: std::rt::Files> Keeper for ScriptKeeper<R> {
    ghost kept = { λ _. None };

    ghost faults = { λ k. k };

    /// Appends the text to the script file. Where that fails, the file is cut back to what it was, as
    /// far as the system lets it.
    fn keep(&mut self, number: Rev, text: &[u8]) -> Put
        ensures pairs { None ≡ kept_after result number text.now None }
        ensures cause { HasCause self.old self.new (is_failed_put result) }
        ensures faults { self.new ≡ count_after (is_failed_put result) self.old }
    {
        if append(&self.rt, self.name.get(), text).is_ok() {
            return Put::Done;
        }
        self.faults = self.faults.saturating_add(1);
        Put::Failed
    }
}

/// Appends the bytes to the file of this name, which has to be there.
fn append<R: std::rt::Files>(rt: &R, name: &[u8], bytes: &[u8]) -> io::Result<()> {
    let Ok(path) = std::str::from_utf8(name) else {
        return Err(io::Error::from(io::ErrorKind::InvalidInput));
    };
    let mut file = OpenOptions::new().append(true).open(rt, path)?;
    let before = file.metadata()?.len();
    if let Err(error) = write_through(&mut file, bytes) {
        file.set_len(before)?;
        return Err(error);
    }
    Ok(())
}

/// Writes all the bytes, and waits until the disk has them.
fn write_through<F: Write + OpenFile>(file: &mut F, bytes: &[u8]) -> io::Result<()> {
    file.write_all(bytes)?;
    file.sync_data()
}
