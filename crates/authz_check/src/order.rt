//! The places of the rules that speak of a repository, in byte order of the rules' paths, so that
//! those of one path, and those under one path, stand together.

ghost use Rattle.std.specs.Prelude.{◌≡◌, ◌≤◌, ◌++◌, ℕ, IfOk, length, true, false, [], ◌∷◌};
ghost use Rattle.std.specs.List.{Contains};
ghost use Rattle.std.specs.List.Sorted.{IsPermutation, IsPartitionPoint};
ghost use Rattle.std.specs.Ordering.{nat_cmp, is_lt};
ghost use Rattle.std.specs.Cmp.Lexicographic.{slice_cmp};
ghost use Rattle.std.specs.Str.{bytes_eq};
ghost use Rattle.dsv_base.specs.Paths.{is_under};
ghost use Rattle.authz_check.specs.Everywhere.{speaks_of};
ghost use Rattle.authz_check.specs.Order.{rule_path, HasEach, IsRising, IsOrder};

use crate::sections::speaks_of;
use authz_file::Rule;
use dsv_base::{NoMemory, Path};
use std::alloc::Global;
use std::cmp::Ordering;

/// The places of the rules that speak of the repository. Its one error is want of memory.
pub fn order_of(alloc: Global, rules: &[Rule], name: &[u8]) -> Result<Vec<usize>, NoMemory>
    ensures { IfOk result (λ places. IsOrder name.now rules.now places.items) }
{
    let mut places = places_of(alloc, rules, name)?;
    sort_places(rules, places.as_mut_slice());
    Ok(places)
}

fn places_of(alloc: Global, rules: &[Rule], name: &[u8]) -> Result<Vec<usize>, NoMemory>
    ensures { IfOk result (λ places. HasEach (λ rule. speaks_of name.now rule ≡ true) rules.now places.items) }
{
    let mut places = Vec::new(alloc);
    'rules: for (at, rule) in rules.iter().enumerate() {
        if speaks_of(name, rule) {
            places.push(at)?;
        }
    }
    Ok(places)
}

fn sort_places(rules: &[Rule], places: &mut [usize])
    ensures moved { IsPermutation places.old places.new }
    ensures rising { IsRising rules.now places.new }
{
    places.sort_unstable_by(
        |a: &usize, b: &usize| -> Ordering
            ensures { result
                ≡ slice_cmp nat_cmp (rule_path rules.entry.now a.now) (rule_path rules.entry.now b.now) }
        { rule_path(rules, *a).cmp(rule_path(rules, *b)) },
    );
}

/// The text of the path of the rule at a place; nothing where there is no rule.
fn rule_path(rules: &[Rule], place: usize) -> &[u8]
    ensures { result.now ≡ rule_path rules.now place }
{
    match rules.get(place) {
        Some(rule) => rule.path.text(),
        None => b"",
    }
}

/// The places of the rules of exactly this path.
pub fn places_at<'a>(rules: &[Rule], places: &'a [usize], path: &[u8]) -> &'a [usize]
    requires { IsRising rules.now places.now }
    ensures { (i : ℕ) → Contains places.now i → rule_path rules.now i ≡ path.now → Contains result.now i }
{
    places_between(rules, places, path, b"", b"\0")
}

/// The places of the rules of the sections below this path.
pub fn places_below<'a>(rules: &[Rule], places: &'a [usize], path: &Path) -> &'a [usize]
    requires { IsRising rules.now places.now }
    ensures { (i : ℕ) → Contains places.now i
        → is_under (rule_path rules.now i) path.now ≡ true → bytes_eq (rule_path rules.now i) path.now ≡ false
        → Contains result.now i }
{
    let text = path.text();
    if text == b"/".as_slice() {
        return places;
    }
    places_between(rules, places, text, b"/", b"0")
}

/// The places of the rules whose paths stand from `front` and `low` on, and before `front` and
/// `high`, in byte order.
fn places_between<'a>(
    rules: &[Rule],
    places: &'a [usize],
    front: &[u8],
    low: &[u8],
    high: &[u8],
) -> &'a [usize]
    requires { IsRising rules.now places.now }
    ensures { (i : ℕ) → Contains places.now i
        → is_lt (slice_cmp nat_cmp (rule_path rules.now i) (front.now ++ low.now)) ≡ false
        → is_lt (slice_cmp nat_cmp (rule_path rules.now i) (front.now ++ high.now)) ≡ true
        → Contains result.now i }
{
    let start = count_before(rules, places, front, low);
    let rest = &places[start..];
    let end = count_before(rules, rest, front, high);
    &rest[..end]
}

/// How many of the places have a path before `front` and `tail`, in byte order.
fn count_before(rules: &[Rule], places: &[usize], front: &[u8], tail: &[u8]) -> usize
    requires { IsRising rules.now places.now }
    ensures bound { result ≤ length places.now }
    ensures parted { IsPartitionPoint
        (λ place. is_lt (slice_cmp nat_cmp (rule_path rules.now place) (front.now ++ tail.now)) ≡ true)
        (λ place. is_lt (slice_cmp nat_cmp (rule_path rules.now place) (front.now ++ tail.now)) ≡ false)
        places.now result }
{
    places.partition_point(
        |place: &usize| -> bool
            ensures { result ≡ is_lt (slice_cmp nat_cmp (rule_path rules.entry.now place.now)
                (front.entry.now ++ tail.entry.now)) }
        { is_before(rule_path(rules, *place), front, tail) },
    )
}

/// Whether the text stands before `front` and `tail`, in byte order.
fn is_before(text: &[u8], front: &[u8], tail: &[u8]) -> bool
    ensures { result ≡ is_lt (slice_cmp nat_cmp text.now (front.now ++ tail.now)) }
{
    match text.strip_prefix(front) {
        Some(rest) => rest.cmp(tail).is_lt(),
        None => text.cmp(front).is_lt(),
    }
}
