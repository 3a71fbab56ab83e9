ghost use Rattle.std.specs.Prelude.{◌≡◌, ◌∷◌, ◌++◌, None, Some, IfOk, IfErr, OnOk};
ghost use Rattle.dsv_base.specs.Gives.{Gives};
ghost use Rattle.authz_file.specs.Faults.{is_free_rules_fault};
ghost use Rattle.authz_file.specs.Words.{own_words};
ghost use Rattle.authz_file.specs.Sections.{place_name};
ghost use Rattle.authz_file.specs.Entries.{group_entry, alias_entry, grant_entry, entry_under, entry_at, section_at, entries_of};
ghost use Rattle.authz_file.specs.Reading.{ReadsLine, RefusesLine};

use crate::grant::Grant;
use crate::items::words_of;
use crate::joined_line::JoinedLine;
use crate::rules_fault::RulesFault;
use crate::section::Section;
use crate::section_entry::SectionEntry;
use crate::section_place::SectionPlace;
use crate::sections::section_of;
use crate::who::Who;
use crate::words::{is_negated, is_user, key_value, principal_of, right_of, who_of};
use dsv_base::{Bytes, List, NoMemory};
use std::alloc::Global;

/// The label of a group or an alias: `@` or `&`, and its name.
fn sigil_label(alloc: Global, sigil: u8, key: &[u8]) -> Result<Bytes, NoMemory>
    ensures { IfOk result (λ label. label ≡ sigil ∷ key.now) }
{
    let mut label = Vec::new(alloc);
    label.push(sigil)?;
    label.extend_from_slice(key)?;
    Ok(Bytes::from_vec(label))
}

/// The name of a section, without the slash that may be dropped.
fn place_name(alloc: Global, place: &SectionPlace) -> Result<Vec<u8>, NoMemory>
    ensures { IfOk result (λ name. name.items ≡ place_name place.now.repos place.now.path) }
{
    match &place.repos {
        None => Ok(Vec::from_slice(alloc, place.path.text())?),
        Some(repos) => {
            let mut name = Vec::from_slice(alloc, repos.get())?;
            name.push(b':')?;
            name.extend_from_slice(place.path.text())?;
            Ok(name)
        }
    }
}

/// The label of a principal in a path section.
fn grant_label(alloc: Global, place: &SectionPlace, key: &[u8]) -> Result<Bytes, NoMemory>
    ensures { IfOk result (λ label. label ≡ place_name place.now.repos place.now.path ++ 10 ∷ key.now) }
{
    let mut label = place_name(alloc, place)?;
    label.push(b'\n')?;
    label.extend_from_slice(key)?;
    Ok(Bytes::from_vec(label))
}

/// The words of a principal: itself, where it is one.
fn own_words(alloc: Global, who: Who, principal: &[u8]) -> Result<List<Bytes>, NoMemory>
    ensures { IfOk result (λ words. words ≡ own_words who principal.now) }
{
    match who {
        Who::All | Who::LoggedIn | Who::Anonymous => Ok(List::of(Vec::new(alloc))),
        Who::Word => {
            let mut words = Vec::with_capacity(alloc, 1)?;
            let word = Bytes::of(alloc, principal)?;
            words.push(word)?;
            Ok(List::of(words))
        }
    }
}

/// A line of `[groups]`.
#[tactic(auto, unfolding(crate::specs::Entries::group_entry))]
fn group_entry(
    alloc: Global,
    line: u32,
    key: &[u8],
    value: &[u8],
) -> Result<SectionEntry, RulesFault>
    ensures { Gives is_free_rules_fault result (group_entry line key.now value.now) }
{
    let words = match words_of(alloc, value)? {
        Some(words) => words,
        None => return Err(RulesFault::BadLine { line }),
    };
    let label = sigil_label(alloc, b'@', key)?;
    Ok(SectionEntry {
        line,
        label,
        words,
        grant: None,
    })
}

/// A line of `[aliases]`.
#[tactic(auto, unfolding(crate::specs::Entries::alias_entry))]
fn alias_entry(
    alloc: Global,
    line: u32,
    key: &[u8],
    value: &[u8],
) -> Result<SectionEntry, RulesFault>
    ensures { Gives is_free_rules_fault result (alias_entry line key.now value.now) }
{
    if !is_user(value) {
        return Err(RulesFault::BadLine { line });
    }
    let label = sigil_label(alloc, b'&', key)?;
    let words = own_words(alloc, Who::Word, value)?;
    Ok(SectionEntry {
        line,
        label,
        words,
        grant: None,
    })
}

/// A line of a path section.
#[tactic(auto, unfolding(crate::specs::Entries::grant_entry))]
fn grant_entry(
    alloc: Global,
    place: &SectionPlace,
    line: u32,
    key: &[u8],
    value: &[u8],
) -> Result<SectionEntry, RulesFault>
    ensures { Gives is_free_rules_fault result (grant_entry place.now line key.now value.now) }
{
    let principal = principal_of(key);
    let who = match who_of(principal) {
        Some(who) => who,
        None => return Err(RulesFault::BadLine { line }),
    };
    let right = match right_of(value) {
        Some(right) => right,
        None => return Err(RulesFault::BadAccess { line }),
    };
    let label = grant_label(alloc, place, key)?;
    let words = own_words(alloc, who, principal)?;
    let place = place.copy()?;
    let negated = is_negated(key);
    let grant = Some(Grant {
        place,
        negated,
        who,
        right,
    });
    Ok(SectionEntry {
        line,
        label,
        words,
        grant,
    })
}

fn entry_under(
    alloc: Global,
    section: &Option<Section>,
    line: u32,
    key: &[u8],
    value: &[u8],
) -> Result<SectionEntry, RulesFault>
    ensures { Gives is_free_rules_fault result (entry_under section.now line key.now value.now) }
{
    match section {
        None => Err(RulesFault::BadLine { line }),
        Some(Section::Groups) => group_entry(alloc, line, key, value),
        Some(Section::Aliases) => alias_entry(alloc, line, key, value),
        Some(Section::At(place)) => grant_entry(alloc, place, line, key, value),
    }
}

/// A line that begins no section.
#[tactic(auto, unfolding(crate::specs::Entries::entry_at))]
fn entry_at(
    alloc: Global,
    section: &Option<Section>,
    line: u32,
    text: &[u8],
) -> Result<SectionEntry, RulesFault>
    ensures { Gives is_free_rules_fault result (entry_at section.now line text.now) }
{
    match key_value(text) {
        None => Err(RulesFault::BadLine { line }),
        Some((key, value)) => entry_under(alloc, section, line, key, value),
    }
}

/// The section that a line begins.
fn section_at(alloc: Global, line: u32, text: &[u8]) -> Result<Section, RulesFault>
    ensures { Gives is_free_rules_fault result (section_at line text.now) }
{
    match section_of(alloc, text)? {
        Some(section) => Ok(section),
        None => Err(RulesFault::BadSection { line }),
    }
}

/// The entries so far, and the section in which the next line stands.
#[derive(Drop)]
struct Reading {
    section: Option<Section>,
    entries: Vec<SectionEntry>,
}

impl Reading {
    #[tactic(auto, unfolding(crate::specs::Entries::entries_of))]
    fn read_line(&mut self, alloc: Global, line: &JoinedLine) -> Result<(), RulesFault>
        ensures ok { OnOk result (ReadsLine self.old line.now self.new) }
        ensures err { IfErr result (RefusesLine self.old.section line.now) }
    {
        match line {
            JoinedLine::Stray { number } => Err(RulesFault::BadLine { line: *number }),
            JoinedLine::Head { number, text } => {
                let section = section_at(alloc, *number, text.get())?;
                self.section = Some(section);
                Ok(())
            }
            JoinedLine::Body { number, text } => {
                let entry = entry_at(alloc, &self.section, *number, text.get())?;
                self.entries.push(entry)?;
                Ok(())
            }
        }
    }

    fn into_entries(self) -> List<SectionEntry>
        ensures { result ≡ self.entries.items }
    {
        let Reading { entries, .. } = self;
        List::of(entries)
    }
}

/// The entries of the lines, or the first line that breaks the grammar.
#[tactic(auto, unfolding(crate::specs::Entries::entries_of))]
pub(crate) fn entries_of(
    alloc: Global,
    lines: &[JoinedLine],
) -> Result<List<SectionEntry>, RulesFault>
    ensures { Gives is_free_rules_fault result (entries_of None lines.now) }
{
    let mut reading = Reading {
        section: None,
        entries: Vec::new(alloc),
    };
    'lines: for line in lines {
        reading.read_line(alloc, line)?;
    }
    Ok(reading.into_entries())
}
