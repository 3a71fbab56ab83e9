ghost use Rattle.std.specs.Prelude.{◌≡◌, IfOk, IsTrue, true, false};
ghost use Rattle.std.specs.List.{list_all};
ghost use Rattle.std.specs.Option.{option_copied};
ghost use Rattle.std.specs.Str.{bytes_eq};
ghost use Rattle.dsv_base.specs.Paths.{is_under};
ghost use Rattle.authz_check.specs.Access.{access, can_read, right_at};
ghost use Rattle.authz_check.specs.Everywhere.{all_access, closed, everywhere, section_paths, tested, speaks_of, meets, at_least, is_no, HoldsUnder};
ghost use Rattle.authz_check.specs.Order.{HasEach, section_rule_at};

use crate::demand::Demand;
use crate::matching::meets;
use crate::order::{order_of, places_at, places_below};
use crate::sections::{right_at, speaks_of};
use authz_file::{Right, Rule, Rules};
use dsv_base::{Bytes, List, NoMemory, Path, parent_text};
use std::alloc::Global;
use std::marker::Model;

/// The rules of a file as they bear on the paths of one repository. Contracts see it as the list
/// of the rules and the repository's name.
///
/// In all calls the user is somebody of a name, or nobody. Only [`Policy::new`] takes memory.
#[derive(Debug, Drop)]
pub struct Policy {
    rules: List<Rule>,
    name: Bytes,
    /// The places of the rules that speak of the repository, in order of their paths.
    order: Vec<usize>,
}

impl Model for Policy {
    ghost use Rattle.authz_check.specs.Policies.{PolicyState};
    ghost use Rattle.authz_check.specs.Order.{IsOrder};

    ghost Value = { PolicyState };

    ghost view = { λ p. record { rules = p.rules; name = p.name } };

    ghost invariant = { λ p. IsOrder p.name p.rules p.order.items };
}

impl Policy {
    /// The policy of these rules, which are copied, for the repository of the name `repos`. Its
    /// one error is want of memory.
    pub fn new(alloc: Global, rules: &Rules, repos: &[u8]) -> Result<Policy, NoMemory>
        ensures { IfOk result (λ p. p ≡ record { rules = rules.now.list; name = repos.now }) }
    {
        let name = Bytes::of(alloc, repos)?;
        let rules = rules.copy(alloc)?.list;
        let order = order_of(alloc, rules.get(), name.get())?;
        Ok(Policy { rules, name, order })
    }

    /// The user's right at a path (Subversion Book, "Path-Based Authorization").
    ///
    /// The path itself is looked at first, then its parent, and so on up to `/`; at each of them
    /// first the section that names the repository, then the one that names none. The first such
    /// section with a line that speaks of the user decides, by the greatest right that one of
    /// these lines gives. Where there is none the right is [`Right::No`].
    pub fn access(&self, user: Option<&[u8]>, path: &Path) -> Right
        ensures { result ≡ access self.now.rules self.now.name (option_copied user.entry) path.now }
    {
        let mut at = path.text();
        'upwards: loop {
            if let Some(right) = self.right_at(user, at) {
                return right;
            }
            match parent_text(at) {
                Some(parent) => at = parent,
                None => return Right::No,
            }
        }
    }

    /// Whether the user may read the path: whether the right there is one to read.
    #[tactic(auto, unfolding(crate::specs::Access::can_read))]
    pub fn can_read(&self, user: Option<&[u8]>, path: &Path) -> bool
        ensures { result ≡ can_read self.now.rules self.now.name (option_copied user.entry) path.now }
    {
        match self.access(user, path) {
            Right::No => false,
            Right::Read | Right::Write => true,
        }
    }

    /// Whether the user has the right `want`, or a greater one, at the path and at each path of a
    /// section under it. The user then has it at every path under this one.
    #[tactic(auto, unfolding(crate::specs::Everywhere::all_access))]
    pub fn all_access(&self, user: Option<&[u8]>, path: &Path, want: Right) -> bool
        ensures value { result ≡ all_access self.now.rules self.now.name (option_copied user.entry) path.now want }
        ensures law { IsTrue result
            → HoldsUnder (at_least want) self.now.rules self.now.name (option_copied user.entry) path.now }
    {
        self.everywhere(user, path, Demand::AtLeast(want))
    }

    /// Whether the user has no right at the path, nor at any path of a section under it. The user
    /// then has none at any path under this one.
    #[tactic(auto, unfolding(crate::specs::Everywhere::closed))]
    pub fn closed(&self, user: Option<&[u8]>, path: &Path) -> bool
        ensures value { result ≡ closed self.now.rules self.now.name (option_copied user.entry) path.now }
        ensures law { IsTrue result
            → HoldsUnder is_no self.now.rules self.now.name (option_copied user.entry) path.now }
    {
        self.everywhere(user, path, Demand::Nothing)
    }

    /// Whether the right at the path, and that at each path of a section under it, is as asked.
    fn everywhere(&self, user: Option<&[u8]>, path: &Path, demand: Demand) -> bool
        ensures value { result
            ≡ everywhere (meets demand) self.now.rules self.now.name (option_copied user.entry) path.now }
        ensures law { IsTrue result
            → HoldsUnder (meets demand) self.now.rules self.now.name (option_copied user.entry) path.now }
    {
        // Its text is a path's, and the law speaks of paths.
        let _text = path.text();
        if !meets(demand, self.access(user, path)) {
            return false;
        }
        self.sections_meet(user, path, demand)
    }

    /// Whether the right at each path of a section under the path is as asked; at the path itself
    /// it is. Sections of one path stand together, so only the first of them is asked about.
    fn sections_meet(&self, user: Option<&[u8]>, path: &Path, demand: Demand) -> bool
        requires { tested (meets demand) self.now.rules self.now.name (option_copied user) path.now ≡ true }
        ensures { result
            ≡ list_all (tested (meets demand) self.now.rules self.now.name (option_copied user.entry))
            (section_paths self.now.rules self.now.name path.now) }
    {
        let mut last = path.text();
        'places: for place in self.places_below(path) {
            let rule = match self.section_rule_at(path, *place) {
                Some(rule) => rule,
                None => continue,
            };
            if rule.path.text() == last {
                continue;
            }
            if !meets(demand, self.access(user, &rule.path)) {
                return false;
            }
            last = rule.path.text();
        }
        true
    }

    /// The rule at a place, where it stands in a section under the path that speaks of the
    /// repository.
    fn section_rule_at(&self, path: &Path, place: usize) -> Option<&Rule>
        ensures { option_copied result ≡ section_rule_at self.now.rules self.now.name path.now place }
    {
        let rule = self.rules().get(place)?;
        if !speaks_of(self.name(), rule) {
            return None;
        }
        if !rule.path.is_under(path) {
            return None;
        }
        Some(rule)
    }

    /// The places of the rules of exactly this path.
    fn places_at(&self, path: &[u8]) -> &[usize]
        ensures { HasEach (λ rule. (speaks_of self.now.name rule ≡ true) × (rule.path ≡ path.now))
            self.now.rules result.now }
    {
        places_at(self.rules.get(), self.order.as_slice(), path)
    }

    /// The places of the rules of sections below this path.
    fn places_below(&self, path: &Path) -> &[usize]
        ensures { HasEach (λ rule. (speaks_of self.now.name rule ≡ true)
            × (is_under rule.path path.now ≡ true) × (bytes_eq rule.path path.now ≡ false))
            self.now.rules result.now }
    {
        places_below(self.rules.get(), self.order.as_slice(), path)
    }

    fn rules(&self) -> &[Rule]
        ensures { result.now ≡ self.now.rules }
    {
        self.rules.get()
    }

    fn name(&self) -> &[u8]
        ensures { result.now ≡ self.now.name }
    {
        self.name.get()
    }

    /// The right that the rules of exactly this path give, where they give one.
    fn right_at(&self, user: Option<&[u8]>, path: &[u8]) -> Option<Right>
        ensures { result ≡ right_at self.now.rules self.now.name (option_copied user.entry) path.now }
    {
        right_at(self.rules(), self.places_at(path), self.name(), user, path)
    }
}
