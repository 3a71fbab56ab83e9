ghost use Rattle.std.specs.Prelude.{◌≤◌, length};
ghost use Rattle.dsv_base.specs.Gives.{Gives};
ghost use Rattle.authz_file.specs.Faults.{is_free_rules_fault};
ghost use Rattle.authz_file.specs.Entries.{file_entries};
ghost use Rattle.authz_file.specs.Resolving.{rules_of};

use crate::entries::entries_of;
use crate::lines::joined_lines;
use crate::resolving::resolved;
use crate::rules::Rules;
use crate::rules_fault::RulesFault;
use crate::section_entry::SectionEntry;
use dsv_base::List;
use std::alloc::Global;

#[tactic(auto, unfolding(crate::specs::Entries::file_entries))]
fn file_entries(alloc: Global, bytes: &[u8]) -> Result<List<SectionEntry>, RulesFault>
    requires { length bytes.now ≤ 268435456 }
    ensures { Gives is_free_rules_fault result (file_entries bytes.now) }
{
    let lines = joined_lines(alloc, bytes)?;
    let entries = entries_of(alloc, lines.as_slice())?;
    Ok(entries)
}

/// Reads a rules file (Subversion Book, "Path-Based Authorization"), of at most 268,435,456 bytes.
///
/// Sections of one name are one section. Of the lines that repeat a key in one section the last counts
/// alone: it gives the rule, or the definition of the group or alias. Groups and aliases are resolved
/// to user names.
///
/// A refusal names the first line that breaks the grammar; where none does, the first line with an
/// unknown group or alias, counting or not, or with a counting definition of a group that holds
/// itself. [`RulesFault::NoMemory`] can come with any file.
#[tactic(auto, unfolding(crate::specs::Resolving::rules_of))]
pub fn read_rules(alloc: Global, bytes: &[u8]) -> Result<Rules, RulesFault>
    requires { length bytes.now ≤ 268435456 }
    ensures { Gives is_free_rules_fault result (rules_of bytes.now) }
{
    let entries = file_entries(alloc, bytes)?;
    resolved(alloc, entries)
}
