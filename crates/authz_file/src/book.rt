ghost use Rattle.std.specs.Prelude.{◌≡◌, ◌<◌, IfOk, IfSome, length};
ghost use Rattle.authz_file.specs.Groups.{place_of_label};
ghost use Rattle.authz_file.specs.Searching.{FindsLabels};

use crate::section_entry::SectionEntry;
use dsv_base::{List, NoMemory};
use std::alloc::Global;
use std::collections::BTreeMap;
use std::marker::Model;

/// The entries of a file, to be looked up by label. Contracts see it as their list.
#[derive(Drop)]
pub(crate) struct Book {
    entries: List<SectionEntry>,
    places: BTreeMap<Vec<u8>, usize>,
}

impl Model for Book {
    ghost use Rattle.std.specs.Prelude.{List};
    ghost use Rattle.authz_file.specs.declared.section_entry.SectionEntry.{SectionEntry};
    ghost use Rattle.authz_file.specs.Searching.{FindsLabels};

    ghost Value = { List SectionEntry };

    ghost view = { λ b. b.entries };

    ghost invariant = { λ b. FindsLabels b.places (λ k. k.items) b.entries };
}

impl Book {
    /// The book of these entries. Its one error is want of memory.
    pub(crate) fn of(alloc: Global, entries: List<SectionEntry>) -> Result<Book, NoMemory>
        ensures { IfOk result (λ book. book ≡ entries) }
    {
        let places = places_of(alloc, entries.get())?;
        Ok(Book { entries, places })
    }

    /// The entries, in the order of their lines.
    pub(crate) fn entries(&self) -> &[SectionEntry]
        ensures { result.now ≡ self.now }
    {
        self.entries.get()
    }

    /// The place of the entry that counts for the label.
    pub(crate) fn place(&self, label: &[u8]) -> Option<usize>
        ensures { result ≡ place_of_label self.now label.now }
    {
        self.places.get(label).copied()
    }
}

/// Per label the place of its last entry.
fn places_of(alloc: Global, entries: &[SectionEntry]) -> Result<BTreeMap<Vec<u8>, usize>, NoMemory>
    ensures { IfOk result (λ places. FindsLabels places (λ k. k.items) entries.now) }
{
    let mut places = BTreeMap::new(alloc);
    'entries: for (at, entry) in entries.iter().enumerate() {
        let label = Vec::from_slice(alloc, entry.label.get())?;
        places.insert(label, at)?;
    }
    Ok(places)
}
