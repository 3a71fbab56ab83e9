//! Whom a rule speaks of, and how rights compare.

ghost use Rattle.std.specs.Prelude.{◌≡◌, Some};
ghost use Rattle.std.specs.Option.{option_copied, option_map_or};
ghost use Rattle.std.specs.List.{list_any};
ghost use Rattle.std.specs.Str.{bytes_eq};
ghost use Rattle.authz_check.specs.Access.{matches, stands_for, greater};
ghost use Rattle.authz_check.specs.Everywhere.{at_least, is_no, meets};

use crate::demand::Demand;
use authz_file::{Base, Right, Rule};
use dsv_base::Bytes;

/// Whether the rule speaks of the user.
pub fn matches(rule: &Rule, user: Option<&[u8]>) -> bool
    ensures { result ≡ matches rule.now (option_copied user.entry) }
{
    if rule.negated {
        !stands_for(&rule.base, user)
    } else {
        stands_for(&rule.base, user)
    }
}

/// Whether the principal stands for the user.
fn stands_for(base: &Base, user: Option<&[u8]>) -> bool
    ensures { result ≡ stands_for base.now (option_copied user.entry) }
{
    match base {
        Base::All => true,
        Base::LoggedIn => user.is_some(),
        Base::Anonymous => user.is_none(),
        Base::Named(names) => match user {
            Some(name) => has_name(names.get(), name),
            None => false,
        },
    }
}

fn has_name(names: &[Bytes], name: &[u8]) -> bool
    ensures { result ≡ list_any (bytes_eq name.now) names.now }
{
    names.iter().any(|other| name == other.get())
}

/// The greater of a right that was found before, if any was, and one more.
pub fn raised(best: Option<Right>, right: Right) -> Option<Right>
    ensures { result ≡ Some (option_map_or (λ found. greater found right) best right) }
{
    match best {
        Some(found) => Some(greater(found, right)),
        None => Some(right),
    }
}

fn greater(left: Right, right: Right) -> Right
    ensures { result ≡ greater left right }
{
    left.max(right)
}

/// Whether the right is what is asked.
pub fn meets(demand: Demand, right: Right) -> bool
    ensures { result ≡ meets demand right }
{
    match demand {
        Demand::AtLeast(want) => at_least(want, right),
        Demand::Nothing => is_no(right),
    }
}

fn at_least(want: Right, right: Right) -> bool
    ensures { result ≡ at_least want right }
{
    right >= want
}

fn is_no(right: Right) -> bool
    ensures { result ≡ is_no right }
{
    right == Right::No
}
