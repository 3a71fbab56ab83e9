ghost use Rattle.std.specs.Prelude.{◌≡◌, ◌++◌, IfSome, IsTrue, MatchResult, option_to_list};
ghost use Rattle.std.specs.Option.{option_copied};
ghost use Rattle.std.specs.Ordering.{nat_cmp};
ghost use Rattle.std.specs.Cmp.Lexicographic.{slice_cmp};
ghost use Rattle.node_table.specs.Tables.{entries_rise};
ghost use Rattle.tree_settling.specs.Merged.{entries_before, entries_behind, CutsAt, CutsBefore};

use rev_nodes::Entry;
use std::cmp::Ordering;

/// Entries as a name cuts them: those before it, its own, if it has one, and those behind it.
#[derive(Drop)]
pub(crate) struct Cut<'a> {
    pub(crate) before: &'a [Entry],
    pub(crate) here: Option<&'a Entry>,
    pub(crate) behind: &'a [Entry],
}

/// Cuts entries in order at a name, whose place is found by halving.
pub(crate) fn cut_at_name<'a>(entries: &'a [Entry], name: &[u8]) -> Cut<'a>
    requires { IsTrue (entries_rise entries.now) }
    ensures before { result.before.now ≡ entries_before name.now entries.now }
    ensures here { IfSome (option_copied result.here) (λ e. e.name ≡ name.now) }
    ensures behind { result.behind.now ≡ entries_behind name.now entries.now }
    ensures whole { result.before.now ++ (option_to_list (option_copied result.here) ++ result.behind.now) ≡ entries.now }
{
    match place_of(entries, name) {
        Ok(index) => Cut {
            before: entries.split_at(index).0,
            here: Some(&entries[index]),
            behind: entries.split_at(index + 1).1,
        },
        Err(index) => Cut {
            before: entries.split_at(index).0,
            here: None,
            behind: entries.split_at(index).1,
        },
    }
}

/// Where a name stands among entries in order, or else where it would stand.
fn place_of(entries: &[Entry], name: &[u8]) -> Result<usize, usize>
    requires { IsTrue (entries_rise entries.now) }
    ensures { MatchResult result (CutsAt name.now entries.now) (CutsBefore name.now entries.now) }
{
    entries.binary_search_by(
        |other: &Entry| -> Ordering
            ensures { result ≡ slice_cmp nat_cmp other.now.name name.entry.now }
        { other.name.get().cmp(name) },
    )
}
