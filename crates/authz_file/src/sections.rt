ghost use Rattle.std.specs.Prelude.{◌≡◌, ◌≤◌, ◌<◌, ◌&&◌, ◌==◌, ◌∷◌, ◌++◌, [], None, Some, IfOk, length, option_copied, option_map, if◌then◌else◌};
ghost use Rattle.dsv_base.specs.Paths.{is_path};
ghost use Rattle.authz_file.specs.Sections.{bracketed, begins_cut, section_path, split_repos, path_place, at_repos, place_of, section_named, place_name, section_of};

use crate::section::Section;
use crate::section_place::SectionPlace;
use dsv_base::{Bytes, NoMemory, Path, PathFault, is_repository_name};
use std::alloc::Global;

/// What stands between `[` and `]`.
fn bracketed(text: &[u8]) -> Option<&[u8]>
    ensures { option_copied result ≡ bracketed text.now }
{
    match text {
        [b'[', name @ .., b']'] => Some(name),
        _ => None,
    }
}

fn path_of(alloc: Global, text: &[u8]) -> Result<Option<Path>, NoMemory>
    ensures { IfOk result (λ path. path ≡ (if is_path text.now then Some text.now else None)) }
{
    match Path::parse(alloc, text) {
        Ok(path) => Ok(Some(path)),
        Err(PathFault::BadPath) => Ok(None),
        Err(PathFault::NoMemory) => Err(NoMemory),
    }
}

/// The path that a section names: one longer than `/` may end with one slash.
#[tactic(auto, unfolding(crate::specs::Sections::section_path))]
fn section_path(alloc: Global, text: &[u8]) -> Result<Option<Path>, NoMemory>
    ensures { IfOk result (λ path. path ≡ section_path text.now) }
{
    if let Some(path) = path_of(alloc, text)? {
        return Ok(Some(path));
    }
    match text {
        [front @ .., b'/'] => {
            if front.len() < 2 {
                return Ok(None);
            }
            path_of(alloc, front)
        }
        _ => Ok(None),
    }
}

/// Whether it begins with `:/`.
fn begins_cut(text: &[u8]) -> bool
    ensures { result ≡ begins_cut text.now }
{
    match text {
        [b':', b'/', ..] => true,
        _ => false,
    }
}

/// What stands before the first `:/`, and what stands after its colon.
fn split_repos(name: &[u8]) -> Option<(&[u8], &[u8])>
    ensures { option_map (λ p. (p.0.now, p.1.now)) result ≡ split_repos name.now }
{
    let mut at = 0;
    'places: while at < name.len() {
        if begins_cut(&name[at..]) {
            return Some((&name[..at], &name[at + 1..]));
        }
        at += 1;
    }
    None
}

/// The place of a path that stands after a repository's name, or without one.
fn path_place(
    alloc: Global,
    repos: Option<Bytes>,
    text: &[u8],
) -> Result<Option<SectionPlace>, NoMemory>
    ensures { IfOk result (λ place. place ≡ path_place repos (section_path text.now)) }
{
    match section_path(alloc, text)? {
        None => Ok(None),
        Some(path) => Ok(Some(SectionPlace { repos, path })),
    }
}

/// The place of a section's name.
#[tactic(auto, unfolding(crate::specs::Sections::place_of))]
fn place_of(alloc: Global, name: &[u8]) -> Result<Option<SectionPlace>, NoMemory>
    ensures { IfOk result (λ place. place ≡ place_of name.now) }
{
    if let [b'/', ..] = name {
        return path_place(alloc, None, name);
    }
    match split_repos(name) {
        None => Ok(None),
        Some((repos, path)) => {
            if !is_repository_name(repos) {
                return Ok(None);
            }
            let repos = Bytes::of(alloc, repos)?;
            path_place(alloc, Some(repos), path)
        }
    }
}

#[tactic(auto, unfolding(crate::specs::Sections::section_named))]
fn section_named(alloc: Global, name: &[u8]) -> Result<Option<Section>, NoMemory>
    ensures { IfOk result (λ section. section ≡ section_named name.now) }
{
    if name == b"groups".as_slice() {
        return Ok(Some(Section::Groups));
    }
    if name == b"aliases".as_slice() {
        return Ok(Some(Section::Aliases));
    }
    match place_of(alloc, name)? {
        None => Ok(None),
        Some(place) => Ok(Some(Section::At(place))),
    }
}

/// The section that a line begins, if it is one. The one error is want of memory.
pub(crate) fn section_of(alloc: Global, text: &[u8]) -> Result<Option<Section>, NoMemory>
    ensures { IfOk result (λ section. section ≡ section_of text.now) }
{
    match bracketed(text) {
        None => Ok(None),
        Some(name) => section_named(alloc, name),
    }
}
