ghost use Rattle.std.specs.Prelude.{◌≡◌, ◌∷◌, ℕ, true, Some, None, IfOk, is_some};
ghost use Rattle.std.specs.FinMap.{is_sorted};
ghost use Rattle.std.specs.Ordering.{nat_cmp};
ghost use Rattle.std.specs.Cmp.Lexicographic.{slice_cmp};
ghost use Rattle.dsv_base.specs.Paths.{components};
ghost use Rattle.node_table.specs.Ways.{are_names};
ghost use Rattle.tree_edits.specs.Edits.{touched_at, or_touched, child_of};
ghost use Rattle.tree_edits.specs.Edits.{Held as HeldRecord};
ghost use Rattle.tree_edits.specs.Rests.{IsRest};
ghost use Rattle.tree_edits.specs.Reading.{CanRead, HasUnder};
ghost use Rattle.tree_edits.specs.Hanging.{with_edit, marked_at, Hangs, Touches, Untouches, hung_below};

use crate::held::Held;
use crate::looking::table_child;
use crate::names::next_name;
use crate::place::Place;
use crate::store::Store;
use dsv_base::{NoMemory, Rev};
use rev_nodes::{Cell, Kind, Unfit};
use std::alloc::Global;

impl Store {
    /// Whether a path was touched.
    pub fn has(&self, path: &[u8]) -> bool
        ensures { result ≡ is_some (touched_at self.now path.now) }
    {
        self.get(path).is_some()
    }

    /// Puts what stands at a path now. Its one error is want of memory, which can come only where it
    /// wasn't touched.
    pub(crate) fn put(
        &mut self,
        alloc: Global,
        path: &[u8],
        edit: Option<Held>,
    ) -> Result<(), Unfit>
        requires sorted { is_sorted (slice_cmp nat_cmp) self.old ≡ true }
        ensures { Hangs (Some (with_edit path.now edit self.old)) self.old self.new result }
    {
        if self.has(path) {
            self.set(path, edit);
            return Ok(());
        }
        Ok(self.add(alloc, path, edit)?)
    }

    /// Marks the directory at a path, which is touched then, and gives the revision that it had if it
    /// was touched before. `place` is what the table has there.
    pub fn touch(
        &mut self,
        alloc: Global,
        path: &[u8],
        place: Option<Place>,
        rev: Rev,
    ) -> Result<Option<Rev>, Unfit>
        requires sorted { is_sorted (slice_cmp nat_cmp) self.old ≡ true }
        ensures { Touches rev (or_touched (touched_at self.old path.now) place.entry)
            path.now self.old self.new result }
    {
        match self.get(path) {
            Some(None) => Err(Unfit::NoParent),
            Some(Some(here)) => match here.node.kind {
                Kind::File => Err(Unfit::NoParent),
                Kind::Dir => {
                    let before = here.node.created;
                    self.stamp(path, rev);
                    Ok(Some(before))
                }
            },
            None => self.touch_new(alloc, path, place, rev),
        }
    }

    fn touch_new(
        &mut self,
        alloc: Global,
        path: &[u8],
        place: Option<Place>,
        rev: Rev,
    ) -> Result<Option<Rev>, Unfit>
        requires fresh { touched_at self.old path.now ≡ None }
        ensures { Touches rev place.entry path.now self.old self.new result }
    {
        let place = match place {
            Some(place) => place,
            None => return Err(Unfit::NoParent),
        };
        match place.node().kind {
            Kind::File => Err(Unfit::NoParent),
            Kind::Dir => {
                let held = place.into_held(rev)?;
                self.add(alloc, path, Some(held))?;
                Ok(None)
            }
        }
    }

    /// Takes a mark back.
    pub fn untouch(&mut self, path: &[u8], before: Option<Rev>)
        requires sorted { is_sorted (slice_cmp nat_cmp) self.old ≡ true }
        ensures { Untouches before path.now self.old self.new }
    {
        match before {
            Some(before) => self.stamp(path, before),
            None => self.remove(path),
        }
    }

    /// Puts what stands at the end of a way from a touched directory down, and marks the directories
    /// between. Where one of them is none, or memory is wanting, nothing is changed.
    pub fn hang_below(
        &mut self,
        alloc: Global,
        cells: &[Cell],
        text: &[u8],
        path: &[u8],
        rest: &[u8],
        leaf: Option<Held>,
        rev: Rev,
    ) -> Result<(), Unfit>
        requires sorted { is_sorted (slice_cmp nat_cmp) self.old ≡ true }
        requires can { CanRead cells.now self.old }
        requires rest { IsRest text.now path.now rest.now }
        requires names { are_names (components rest.now) ≡ true }
        ensures { (above : HeldRecord) → touched_at self.old path.now ≡ Some (Some above) →
            Hangs (hung_below rev cells.now leaf self.old path.now above (components rest.now))
            self.old self.new result }
    {
        match next_name(text, path, rest) {
            None => self.put(alloc, text, leaf),
            Some((name, next, after)) => {
                let place = self.placed(cells, path, name)?;
                let before = match self.touch(alloc, next, place, rev) {
                    Ok(before) => before,
                    Err(why) => return Err(why),
                };
                match self.hang_below(alloc, cells, text, next, after, leaf, rev) {
                    Ok(()) => Ok(()),
                    Err(why) => {
                        self.untouch(next, before);
                        Err(why)
                    }
                }
            }
        }
    }

    /// What the table has at a name below a touched path.
    fn placed<'a>(
        &self,
        cells: &'a [Cell],
        path: &[u8],
        name: &[u8],
    ) -> Result<Option<Place<'a>>, NoMemory>
        requires can { CanRead cells.now self.now }
        ensures place { (above : HeldRecord) → touched_at self.now path.now ≡ Some (Some above) →
            IfOk result (λ place. place ≡ child_of cells.now name.now above) }
        ensures under { IfOk result (λ place. HasUnder cells.now place) }
    {
        match self.get(path) {
            Some(Some(above)) => table_child(cells, &above.line, above.under, name),
            Some(None) => Ok(None),
            None => Ok(None),
        }
    }
}
