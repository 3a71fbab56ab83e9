ghost use Rattle.std.specs.Prelude.{◌≡◌, false, IsTrue, IfOk, IfSome, IsErr, IsErrOf, Some, None, count_by};
ghost use Rattle.std.specs.List.{list_all};
ghost use Rattle.std.specs.Str.{bytes_eq};
ghost use Rattle.dsv_base.specs.Paths.{is_path, is_component, is_component_byte, components, is_reserved, is_below_root, is_under, is_slash, root_text, parent_text, name_of, join_text, front_of};

use crate::bytes::Bytes;
use crate::no_memory::NoMemory;
use crate::parent::{before_last_slash, name_text, parent_text};
use crate::path_fault::PathFault;
use crate::text::{has_noncharacter_bytes, is_utf8_text};
use std::alloc::Global;
use std::marker::Model;

/// The path of a node: `/`, or 1 to 64 components, each after one `/`, in at most 1,024 bytes.
///
/// A component is 1 to 255 bytes of UTF-8 without `/`, without bytes below 32, without 127,
/// U+FFFE and U+FFFF, and isn't `.`, `..` or `!svn`. Contracts see a path as its text.
#[derive(Debug, Drop)]
pub struct Path {
    text: Bytes,
}

impl Model for Path {
    ghost use Rattle.std.specs.Prelude.{List, ℕ, IsTrue};
    ghost use Rattle.dsv_base.specs.Paths.{is_path};

    ghost Value = { List ℕ };

    ghost view = { λ p. p.text };

    ghost invariant = { λ p. IsTrue (is_path p.text) };
}

impl Path {
    /// The path `/`. Its one error is want of memory.
    #[tactic(auto, unfolding(crate::specs::Paths::is_path))]
    pub fn root(alloc: Global) -> Result<Path, NoMemory>
        ensures { IfOk result (λ p. p ≡ root_text) }
    {
        let text = Bytes::of(alloc, b"/")?;
        Ok(Path { text })
    }

    /// The path that `text` is. [`PathFault::BadPath`] comes exactly where it is none.
    pub fn parse(alloc: Global, text: &[u8]) -> Result<Path, PathFault>
        ensures value { IfOk result (λ p. (p ≡ text.now) × IsTrue (is_path text.now)) }
        ensures bad { IsErrOf result PathFault.BadPath → is_path text.now ≡ false }
        ensures only { is_path text.now ≡ false → result ≡ Err PathFault.BadPath }
    {
        if !is_path_text(text) {
            return Err(PathFault::BadPath);
        }
        match Bytes::of(alloc, text) {
            Ok(text) => Ok(Path { text }),
            Err(_) => Err(PathFault::NoMemory),
        }
    }

    /// The path that `text` is, which is kept and not copied; `None` where it is none.
    pub fn from_bytes(text: Bytes) -> Option<Path>
        ensures value { IfSome result (λ p. (p ≡ text) × IsTrue (is_path text)) }
        ensures none { result ≡ None → is_path text ≡ false }
    {
        if !is_path_text(text.get()) {
            return None;
        }
        Some(Path { text })
    }

    /// Its text.
    pub fn text(&self) -> &[u8]
        ensures text { result.now ≡ self.now }
        ensures path { IsTrue (is_path self.now) }
    {
        self.text.get()
    }

    /// The same path, whose text is held together with this one's. Its one error is want of memory.
    pub fn copy(&self) -> Result<Path, NoMemory>
        ensures { IfOk result (λ p. p ≡ self.now) }
    {
        let text = self.text.copy()?;
        Ok(Path { text })
    }

    /// The directory that it stands in; `None` for `/`. Its one error is want of memory.
    pub fn parent(&self) -> Result<Option<Path>, NoMemory>
        ensures value { IfOk result (λ parent. parent ≡ parent_text self.now) }
        ensures joined { IfOk result (λ parent. IfSome parent (λ directory.
            join_text directory (name_of self.now) ≡ self.now)) }
    {
        match parent_text(self.text.get()) {
            None => Ok(None),
            Some(parent) => {
                let text = Bytes::of(self.text.allocator(), parent)?;
                Ok(Some(Path { text }))
            }
        }
    }

    /// Its last component; nothing for `/`.
    pub fn name(&self) -> &[u8]
        ensures name { result.now ≡ name_of self.now }
        ensures component { bytes_eq self.now root_text ≡ false → IsTrue (is_component (name_of self.now)) }
    {
        name_text(self.text.get())
    }

    /// Its last component, held together with its text; nothing for `/`. Its one error is want of
    /// memory.
    #[tactic(auto, unfolding(crate::specs::Paths::name_of))]
    pub fn name_bytes(&self) -> Result<Bytes, NoMemory>
        ensures { IfOk result (λ name. name ≡ name_of self.now) }
    {
        let front = before_last_slash(self.text.get());
        self.text.after(front.len() + 1)
    }

    /// The path with `name` behind it, after a `/`, of which `/` has its own. [`PathFault::BadPath`]
    /// comes exactly where that is no path.
    pub fn join(&self, name: &[u8]) -> Result<Path, PathFault>
        ensures value { IfOk result (λ p. (p ≡ join_text self.now name.now)
            × IsTrue (is_path (join_text self.now name.now))) }
        ensures bad { IsErrOf result PathFault.BadPath → is_path (join_text self.now name.now) ≡ false }
        ensures only { is_path (join_text self.now name.now) ≡ false → IsErr result }
        ensures parent { IsTrue (is_component name.now) → IfOk result (λ p. parent_text p ≡ Some self.now) }
        ensures name { IsTrue (is_component name.now) → IfOk result (λ p. name_of p ≡ name.now) }
    {
        let text = joined_text(self.text.allocator(), self.text.get(), name)?;
        if !is_path_text(text.as_slice()) {
            return Err(PathFault::BadPath);
        }
        let text = Bytes::from_vec(text);
        Ok(Path { text })
    }

    /// Whether it is `top` or stands below it: every path is under `/`.
    pub fn is_under(&self, top: &Path) -> bool
        ensures { result ≡ is_under self.now top.now }
    {
        is_under_text(self.text.get(), top.text.get())
    }
}

#[tactic(auto, unfolding(crate::specs::Paths::join_text))]
fn joined_text(alloc: Global, path: &[u8], name: &[u8]) -> Result<Vec<u8>, NoMemory>
    ensures { IfOk result (λ text. text.items ≡ join_text path.now name.now) }
{
    let mut text = Vec::from_slice(alloc, front_of(path))?;
    text.push(b'/')?;
    text.extend_from_slice(name)?;
    Ok(text)
}

/// What stands before the `/` of each child of the directory.
fn front_of(path: &[u8]) -> &[u8]
    ensures { result.now ≡ front_of path.now }
{
    if path == b"/".as_slice() { b"" } else { path }
}

#[tactic(auto, unfolding(crate::specs::Paths::is_under))]
fn is_under_text(text: &[u8], top: &[u8]) -> bool
    ensures { result ≡ is_under text.now top.now }
{
    text == top
        || top == b"/".as_slice()
        || (text.starts_with(top) && text.len() > top.len() && text[top.len()] == b'/')
}

#[tactic(auto, unfolding(crate::specs::Paths::is_path))]
fn is_path_text(text: &[u8]) -> bool
    ensures { result ≡ is_path text.now }
{
    match text {
        [] => false,
        [first, rest @ ..] => {
            if *first != b'/' {
                return false;
            }
            if rest.is_empty() {
                return true;
            }
            rest.len() <= 1023 && is_below_root_text(rest)
        }
    }
}

fn is_below_root_text(rest: &[u8]) -> bool
    ensures { result ≡ is_below_root rest.now }
{
    if slash_count(rest) >= 64 {
        return false;
    }
    are_components(rest)
}

fn slash_count(rest: &[u8]) -> usize
    ensures { result ≡ count_by is_slash rest.now }
{
    rest.iter().filter(|b| **b == b'/').count()
}

fn are_components(rest: &[u8]) -> bool
    ensures { result ≡ list_all is_component (components rest.now) }
{
    rest.split(|b| *b == b'/')
        .all(|part| is_component_text(part))
}

fn is_component_text(part: &[u8]) -> bool
    ensures { result ≡ is_component part.now }
{
    if part.is_empty() || part.len() > 255 {
        return false;
    }
    if !has_component_bytes(part) {
        return false;
    }
    if !is_utf8_text(part) {
        return false;
    }
    if has_noncharacter_bytes(part) {
        return false;
    }
    !is_reserved_text(part)
}

fn has_component_bytes(part: &[u8]) -> bool
    ensures { result ≡ list_all is_component_byte part.now }
{
    part.iter().all(|b| *b >= 32 && *b != 127 && *b != b'/')
}

fn is_reserved_text(part: &[u8]) -> bool
    ensures { result ≡ is_reserved part.now }
{
    part == b".".as_slice() || part == b"..".as_slice() || part == b"!svn".as_slice()
}
