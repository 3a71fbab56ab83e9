ghost use Rattle.std.specs.Prelude.{ℕ, ◌≡◌, List, Option};
ghost use Rattle.dsv_outside.specs.Causes.{HasCause, Rose};
ghost use Rattle.dsv_outside.specs.Reads.{FileGives, IsUnreadable, is_failed_file};

use crate::file_got::FileGot;

/// Files by name.
pub trait Files {
    /// The names with their bytes, where these are told. Files that may change tell none.
    ghost contents: { Self → Option (List (List ℕ × List ℕ)) };

    /// The count of faults, a u64.
    ghost faults: { Self → ℕ };

    /// The bytes of the file of this name: the first of the name, where they are told.
    ///
    /// A missing file, one of more than 268,435,456 bytes and one that can't be read each raise the
    /// count of faults, and `Failed` comes only where it rose. No call changes what is told.
    fn read(&mut self, name: &[u8]) -> FileGot
        ensures bytes { FileGives (contents self.old) name.now result }
        ensures same { contents self.new ≡ contents self.old }
        ensures unreadable { IsUnreadable (contents self.old) name.now →
            Rose (faults self.old) (faults self.new) }
        ensures cause { HasCause (faults self.old) (faults self.new) (is_failed_file result) };
}
