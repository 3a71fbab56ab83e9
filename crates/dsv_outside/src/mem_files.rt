ghost use Rattle.std.specs.Prelude.{◌≡◌, ◌↔◌, ◌⊎◌, Some, None};
ghost use Rattle.dsv_outside.specs.Causes.{HasCause, Rose};
ghost use Rattle.dsv_outside.specs.Calls.{IsDue, no_calls, after_call};
ghost use Rattle.dsv_outside.specs.FileTables.{text_named};
ghost use Rattle.dsv_outside.specs.Reads.{FileGives, IsUnreadable, is_failed_file};

use crate::calls::Calls;
use crate::file_got::FileGot;
use crate::file_table::read_named;
use crate::files::Files;
use dsv_base::Bytes;
use std::marker::Model;

/// Files in memory, some of whose calls fail. Contracts see the names with their bytes, and the
/// calls: the numbers of those that fail, the number of the next, and the count of faults.
#[derive(Debug, Drop)]
pub struct MemFiles {
    contents: Vec<(Bytes, Bytes)>,
    calls: Calls,
}

impl Model for MemFiles {
    ghost use Rattle.dsv_outside.specs.FileStates.{MemFilesState};

    ghost Value = { MemFilesState };

    ghost view = { λ f. record { contents = f.contents.items; calls = f.calls } };
}

impl MemFiles {
    /// These names with their bytes; the calls with these numbers fail, counted from 0. Where a name
    /// stands twice, the first pair counts.
    pub fn new(contents: Vec<(Bytes, Bytes)>, failing: Vec<u64>) -> MemFiles
        ensures { result ≡ record { contents = contents.items; calls = no_calls failing.items } }
    {
        MemFiles {
            contents,
            calls: Calls::new(failing),
        }
    }
}

impl Files for MemFiles {
    ghost contents = { λ f. Some f.contents };

    ghost faults = { λ f. f.calls.faults };

    /// The bytes under the name. The calls whose numbers were given fail, and those at whose name
    /// nothing or too much stands, and no others.
    fn read(&mut self, name: &[u8]) -> FileGot
        ensures bytes { FileGives (Some self.old.contents) name.now result }
        ensures same { self.new.contents ≡ self.old.contents }
        ensures unreadable { IsUnreadable (Some self.old.contents) name.now →
            Rose self.old.calls.faults self.new.calls.faults }
        ensures cause { HasCause self.old.calls.faults self.new.calls.faults
            (is_failed_file result) }
        ensures fails { (result ≡ FileGot.Failed) ↔
            (IsDue self.old.calls ⊎ (text_named self.old.contents name.now ≡ None)) }
        ensures calls { self.new.calls ≡ after_call (is_failed_file result) self.old.calls }
    {
        if self.calls.begin() {
            self.calls.fail();
            return FileGot::Failed;
        }
        let got = read_named(self.contents.as_slice(), name);
        if let FileGot::Failed = got {
            self.calls.fail();
        }
        got
    }
}
