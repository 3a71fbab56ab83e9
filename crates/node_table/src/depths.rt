ghost use Rattle.std.specs.Prelude.{◌≡◌, ◌≤◌, ◌+◌, length};
ghost use Rattle.dsv_base.specs.Paths.{components};
ghost use Rattle.node_table.specs.Ways.{names_in};

use crate::names::first_name;
use crate::places::below_root;

/// The number of names.
pub fn count_names(rest: &[u8]) -> u64
    ensures value { result ≡ length (components rest.now) }
    ensures bound { result ≤ length rest.now + 1 }
{
    match first_name(rest) {
        None => 1,
        Some((_name, after)) => count_names(after) + 1,
    }
}

/// The number of names of a path.
pub fn depth(text: &[u8]) -> u64
    ensures { result ≡ length (names_in text.now) }
{
    match below_root(text) {
        None => 0,
        Some(rest) => count_names(rest),
    }
}
