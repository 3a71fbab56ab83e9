ghost use Rattle.std.specs.Prelude.{◌≡◌, ◌+◌, ◌++◌, IfOk, OnOk, IsTrue, Some, length, drop, reverse};
ghost use Rattle.dsv_base.specs.Paths.{is_path, front_of, name_of, parent_text};
ghost use Rattle.rev_nodes.specs.Entries.{is_child};
ghost use Rattle.tree_settling.specs.Listed.{AreBehind, AreListed, listed_in};

use crate::made::Made;
use dsv_base::{NoMemory, parent_text};
use std::alloc::Global;

/// What was made of the names right in a directory. `made` has the paths behind it in byte order, the
/// first of them last.
pub(crate) fn listed<'a>(
    alloc: Global,
    directory: &[u8],
    made: &[Made<'a>],
) -> Result<Vec<Made<'a>>, NoMemory>
    requires { AreBehind directory.now (reverse made.now) }
    ensures { IfOk result (λ names. AreListed directory.now (reverse made.now) names.items) }
{
    let mut names = Vec::new(alloc);
    let mut left = made.len();
    'made: while left > 0 {
        left -= 1;
        let first = &made[left];
        if !first.at().starts_with(directory) {
            return Ok(names);
        }
        push_listed(&mut names, directory, first)?;
    }
    Ok(names)
}

/// Adds what was made of a path by its name, where it stands right in the directory.
fn push_listed<'a>(
    names: &mut Vec<Made<'a>>,
    directory: &[u8],
    made: &Made<'a>,
) -> Result<(), NoMemory>
    requires { IsTrue (is_path made.now.0) }
    ensures { OnOk result (names.new.items ≡ names.old.items ++ listed_in directory.now made.now) }
{
    if is_child(directory, made.at()) {
        names.push(Made::of(name_in(directory, made.at()), made.id()))?;
    }
    Ok(())
}

fn is_child(directory: &[u8], path: &[u8]) -> bool
    ensures { result ≡ is_child directory.now path.now }
{
    match parent_text(path) {
        None => false,
        Some(parent) => directory == parent,
    }
}

/// The name of a path that stands right in the directory.
fn name_in<'a>(directory: &[u8], path: &'a [u8]) -> &'a [u8]
    requires path { IsTrue (is_path path.now) }
    requires child { parent_text path.now ≡ Some directory.now }
    ensures { result.now ≡ name_of path.now }
{
    behind(path, front_length(directory))
}

/// How much stands before the `/` of each child of the directory.
fn front_length(directory: &[u8]) -> usize
    ensures { result ≡ length (front_of directory.now) }
{
    if directory == b"/".as_slice() {
        0
    } else {
        directory.len()
    }
}

/// What stands behind a byte.
fn behind(text: &[u8], at: usize) -> &[u8]
    ensures { result.now ≡ drop (at + 1) text.now }
{
    if at < text.len() {
        &text[at + 1..]
    } else {
        &[]
    }
}
