//! The right that the rules of one path give.

ghost use Rattle.std.specs.Prelude.{◌≡◌, max, true, None, Some};
ghost use Rattle.std.specs.Option.{option_copied, option_eq};
ghost use Rattle.std.specs.Str.{bytes_eq};
ghost use Rattle.authz_check.specs.Access.{right_at, right_in, section_rules, is_in_section};
ghost use Rattle.authz_check.specs.Everywhere.{speaks_of};
ghost use Rattle.authz_check.specs.Order.{HasEach};
ghost use Rattle.authz_check.specs.Weights.{level, weight, weight_at};

use crate::matching::{matches, raised};
use authz_file::{Right, Rule};
use dsv_base::Bytes;

/// The right that the rules of exactly this path give, where they give one. Their places are
/// given, and maybe those of other rules.
pub fn right_at(
    rules: &[Rule],
    places: &[usize],
    name: &[u8],
    user: Option<&[u8]>,
    path: &[u8],
) -> Option<Right>
    requires own { HasEach (λ rule. is_in_section (Some name.now) path.now rule ≡ true) rules.now places.now }
    requires plain { HasEach (λ rule. is_in_section None path.now rule ≡ true) rules.now places.now }
    ensures { result ≡ right_at rules.now name.now (option_copied user.entry) path.now }
{
    match right_in(rules, places, Some(name), user, path) {
        Some(right) => Some(right),
        None => right_in(rules, places, None, user, path),
    }
}

/// The right that one section gives: the greatest of its rules that speak of the user.
fn right_in(
    rules: &[Rule],
    places: &[usize],
    repos: Option<&[u8]>,
    user: Option<&[u8]>,
    path: &[u8],
) -> Option<Right>
    requires { HasEach (λ rule. is_in_section (option_copied repos) path.now rule ≡ true) rules.now places.now }
    ensures { result ≡ right_in (option_copied user.entry)
        (section_rules rules.now (option_copied repos.entry) path.now) }
{
    let mut best = None;
    'places: for place in places {
        best = with_place(best, rules, *place, repos, user, path);
    }
    best
}

/// The greater of a right that was found before, and what the rule at one more place gives.
fn with_place(
    best: Option<Right>,
    rules: &[Rule],
    place: usize,
    repos: Option<&[u8]>,
    user: Option<&[u8]>,
    path: &[u8],
) -> Option<Right>
    ensures { level result
        ≡ max (level best)
        (weight_at (option_copied user.entry) (option_copied repos.entry) path.now rules.now place) }
{
    match rules.get(place) {
        Some(rule) => with_rule(best, rule, repos, user, path),
        None => best,
    }
}

/// The greater of a right that was found before, and what one more rule gives.
fn with_rule(
    best: Option<Right>,
    rule: &Rule,
    repos: Option<&[u8]>,
    user: Option<&[u8]>,
    path: &[u8],
) -> Option<Right>
    ensures { level result
        ≡ max (level best) (weight (option_copied user.entry) (option_copied repos.entry) path.now rule.now) }
{
    if !is_in_section(rule, repos, path) {
        return best;
    }
    if !matches(rule, user) {
        return best;
    }
    raised(best, rule.right)
}

/// Whether the rule stands in the section of this path that names this repository, or none.
fn is_in_section(rule: &Rule, repos: Option<&[u8]>, path: &[u8]) -> bool
    ensures { result ≡ is_in_section (option_copied repos.entry) path.now rule.now }
{
    if !same_repos(&rule.repos, repos) {
        return false;
    }
    rule.path.text() == path
}

/// Whether the rule stands in a section that speaks of the repository.
pub fn speaks_of(name: &[u8], rule: &Rule) -> bool
    ensures { result ≡ speaks_of name.now rule.now }
{
    if same_repos(&rule.repos, None) {
        return true;
    }
    same_repos(&rule.repos, Some(name))
}

fn same_repos(left: &Option<Bytes>, right: Option<&[u8]>) -> bool
    ensures { result ≡ option_eq bytes_eq left.now (option_copied right.entry) }
{
    match (left, right) {
        (None, None) => true,
        (Some(left), Some(right)) => left.get() == right,
        _ => false,
    }
}
