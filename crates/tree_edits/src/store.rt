ghost use Rattle.std.specs.Prelude.{◌≡◌, ℕ, true, None, Some, [], IfOk, OnOk, OnErr, is_some};
ghost use Rattle.std.specs.Option.{option_copied};
ghost use Rattle.std.specs.FinMap.{is_sorted};
ghost use Rattle.std.specs.Ordering.{nat_cmp};
ghost use Rattle.std.specs.Cmp.Lexicographic.{slice_cmp};
ghost use Rattle.dsv_base.specs.Paths.{is_under};
ghost use Rattle.tree_edits.specs.Edits.{touched_at};
ghost use Rattle.tree_edits.specs.Edits.{Held as HeldRecord};
ghost use Rattle.tree_edits.specs.Hanging.{with_edit, without_edit, marked_at, is_below, cleared};
ghost use Rattle.tree_edits.specs.Stored.{touched_of};

use crate::held::Held;
use crate::touch::Touch;
use dsv_base::{NoMemory, Rev};
use std::alloc::Global;
use std::collections::BTreeMap;
use std::marker::Model;

/// The touched paths with what stands there now. Contracts see them as a list in byte order.
#[derive(Drop)]
pub struct Store {
    map: BTreeMap<Vec<u8>, Option<Held>>,
}

impl Model for Store {
    ghost use Rattle.tree_edits.specs.Edits.{Touched};
    ghost use Rattle.tree_edits.specs.Stored.{touched_of};

    ghost Value = { Touched };

    ghost view = { λ s. touched_of (λ k. k.items) s.map.entries };
}

impl Store {
    /// No paths.
    pub fn new(alloc: Global) -> Store
        ensures { result ≡ [] }
    {
        Store {
            map: BTreeMap::new(alloc),
        }
    }

    /// What is said of a path, if it was touched.
    pub fn get(&self, path: &[u8]) -> Option<&Option<Held>>
        ensures { option_copied result ≡ touched_at self.now path.now }
    {
        self.map.get(path)
    }

    /// Adds a path. Its one error is want of memory, which can come only where it wasn't touched.
    pub(crate) fn add(
        &mut self,
        alloc: Global,
        path: &[u8],
        edit: Option<Held>,
    ) -> Result<(), NoMemory>
        ensures done { OnOk result (self.new ≡ with_edit path.now edit self.old) }
        ensures kept { OnErr result (self.new ≡ self.old) }
    {
        let key = Vec::from_slice(alloc, path)?;
        self.map.insert(key, edit)?;
        Ok(())
    }

    /// Puts another edit at a path that was touched.
    pub(crate) fn set(&mut self, path: &[u8], edit: Option<Held>)
        requires sorted { is_sorted (slice_cmp nat_cmp) self.old ≡ true }
        requires there { is_some (touched_at self.old path.now) ≡ true }
        ensures { self.new ≡ with_edit path.now edit self.old }
    {
        if let Some(slot) = self.map.get_mut(path) {
            *slot = edit;
        }
    }

    /// Sets the revision of what stands at a touched path.
    pub(crate) fn stamp(&mut self, path: &[u8], created: Rev)
        requires sorted { is_sorted (slice_cmp nat_cmp) self.old ≡ true }
        ensures { (here : HeldRecord) → touched_at self.old path.now ≡ Some (Some here) →
            self.new ≡ marked_at created path.now here self.old }
    {
        if let Some(slot) = self.map.get_mut(path) {
            if let Some(held) = slot {
                held.node.created = created;
            }
        }
    }

    /// Takes a path out.
    pub(crate) fn remove(&mut self, path: &[u8])
        ensures { self.new ≡ without_edit path.now self.old }
    {
        self.map.remove(path);
    }

    /// The touched paths with what stands there now. Its one error is want of memory.
    pub fn touches(&self, alloc: Global) -> Result<Vec<Touch<'_>>, NoMemory>
        ensures { IfOk result (λ all. all.items ≡ self.now) }
    {
        touches_in(alloc, &self.map)
    }

    /// Takes out all paths below one.
    pub(crate) fn clear_below(&mut self, path: &[u8])
        ensures { self.new ≡ cleared path.now self.old }
    {
        self.map
            .retain(|key, _edit| !is_below(key.as_slice(), path));
    }
}

fn touches_in<'a>(
    alloc: Global,
    map: &'a BTreeMap<Vec<u8>, Option<Held>>,
) -> Result<Vec<Touch<'a>>, NoMemory>
    ensures { IfOk result (λ all. all.items ≡ touched_of (λ k. k.items) map.now.entries) }
{
    let mut all = Vec::with_capacity(alloc, map.len())?;
    'edits: for (path, held) in map {
        all.push(Touch::of(path.as_slice(), held.as_ref()))?;
    }
    Ok(all)
}

/// Whether a path stands below another.
fn is_below(text: &[u8], top: &[u8]) -> bool
    ensures { result ≡ is_below text.now top.now }
{
    if text == top {
        return false;
    }
    is_under(text, top)
}

#[tactic(auto, unfolding(dsv_base::specs::Paths::is_under))]
fn is_under(text: &[u8], top: &[u8]) -> bool
    ensures { result ≡ is_under text.now top.now }
{
    text == top
        || top == b"/".as_slice()
        || (text.starts_with(top) && text.len() > top.len() && text[top.len()] == b'/')
}
