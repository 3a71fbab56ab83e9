ghost use Rattle.std.specs.Prelude.{◌≡◌, ◌↔◌, Some, None};
ghost use Rattle.dsv_outside.specs.Causes.{HasCause, Rose, count_after};
ghost use Rattle.dsv_outside.specs.FileTables.{text_named};
ghost use Rattle.dsv_outside.specs.Reads.{FileGives, IsUnreadable, is_failed_file};

use crate::file_got::FileGot;
use crate::file_table::read_named;
use crate::files::Files;
use dsv_base::Bytes;
use std::marker::Model;

/// Files in memory that fail only where a file is missing or too long. Contracts see the names with
/// their bytes, and the count of faults.
#[derive(Debug, Drop)]
pub struct SureFiles {
    contents: Vec<(Bytes, Bytes)>,
    faults: u64,
}

impl Model for SureFiles {
    ghost use Rattle.dsv_outside.specs.FileStates.{SureFilesState};

    ghost Value = { SureFilesState };

    ghost view = { λ f. record { contents = f.contents.items; faults = f.faults } };
}

impl SureFiles {
    /// These names with their bytes. Where a name stands twice, the first pair counts.
    pub fn new(contents: Vec<(Bytes, Bytes)>) -> SureFiles
        ensures { result ≡ record { contents = contents.items; faults = 0 } }
    {
        SureFiles {
            contents,
            faults: 0,
        }
    }
}

impl Files for SureFiles {
    ghost contents = { λ f. Some f.contents };

    ghost faults = { λ f. f.faults };

    /// The bytes under the name. It fails exactly where nothing or too much stands there.
    fn read(&mut self, name: &[u8]) -> FileGot
        ensures bytes { FileGives (Some self.old.contents) name.now result }
        ensures same { self.new.contents ≡ self.old.contents }
        ensures unreadable { IsUnreadable (Some self.old.contents) name.now →
            Rose self.old.faults self.new.faults }
        ensures cause { HasCause self.old.faults self.new.faults (is_failed_file result) }
        ensures fails { (result ≡ FileGot.Failed) ↔ (text_named self.old.contents name.now ≡ None) }
        ensures faults { self.new.faults ≡ count_after (is_failed_file result) self.old.faults }
    {
        let got = read_named(self.contents.as_slice(), name);
        if let FileGot::Failed = got {
            self.faults = self.faults.saturating_add(1);
        }
        got
    }
}
