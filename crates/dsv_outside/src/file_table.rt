ghost use Rattle.std.specs.Prelude.{◌≡◌, ◌↔◌, Some, None};
ghost use Rattle.std.specs.Option.{option_copied};
ghost use Rattle.dsv_outside.specs.FileTables.{file_named, text_named};
ghost use Rattle.dsv_outside.specs.Reads.{FileGives, IsCopyOf};

use crate::file_got::FileGot;
use dsv_base::Bytes;

/// The most bytes of a file that is read.
const MOST_FILE_BYTES: usize = 268_435_456;

/// The bytes of the first file of this name. It fails exactly where there is none, or where it is
/// too long.
#[tactic(auto, unfolding(crate::specs::FileTables::text_named))]
pub(crate) fn read_named(files: &[(Bytes, Bytes)], name: &[u8]) -> FileGot
    ensures bytes { FileGives (Some files.now) name.now result }
    ensures fails { (result ≡ FileGot.Failed) ↔ (text_named files.now name.now ≡ None) }
{
    match find_file(files, name) {
        Some(text) if text.get().len() <= MOST_FILE_BYTES => copy_of(text),
        _ => FileGot::Failed,
    }
}

fn copy_of(text: &Bytes) -> FileGot
    ensures { IsCopyOf text.now result }
{
    match text.copy() {
        Ok(copy) => FileGot::Bytes(copy),
        Err(_) => FileGot::NoMemory,
    }
}

/// The first file of this name.
#[tactic(auto, unfolding(crate::specs::FileTables::file_named))]
fn find_file<'a>(files: &'a [(Bytes, Bytes)], name: &[u8]) -> Option<&'a Bytes>
    ensures { option_copied result ≡ file_named files.now name.now }
{
    'files: for (known, text) in files {
        if known.get() == name {
            return Some(text);
        }
    }
    None
}
