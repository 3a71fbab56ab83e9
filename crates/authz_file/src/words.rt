ghost use Rattle.std.specs.Prelude.{◌≡◌, ◌∷◌, ◌<◌, [], None, Some, length, option_map, position, IfSome};
ghost use Rattle.dsv_base.specs.TextFiles.{begins_with, is_comma};
ghost use Rattle.authz_file.specs.Words.{is_separator, is_user, is_word, key_value, who_of, right_of, is_negated, principal_of};

use crate::right::Right;
use crate::who::Who;
use dsv_base::trimmed;

/// Where the first `=` or `:` stands.
fn separator(text: &[u8]) -> Option<usize>
    ensures place { result ≡ position is_separator text.now }
    ensures within { IfSome result (λ at. at < length text.now) }
{
    text.iter().position(|b| *b == b'=' || *b == b':')
}

/// What stands around the first separator, without blanks; `None` without one, or where nothing
/// stands before it.
#[tactic(auto, unfolding(crate::specs::Words::key_value))]
pub(crate) fn key_value(text: &[u8]) -> Option<(&[u8], &[u8])>
    ensures { option_map (λ p. (p.0.now, p.1.now)) result ≡ key_value text.now }
{
    let at = match separator(text) {
        Some(at) => at,
        None => return None,
    };
    let key = trimmed(&text[..at]);
    if key.is_empty() {
        return None;
    }
    Some((key, trimmed(&text[at + 1..])))
}

/// Whether it can be the name of a user.
pub(crate) fn is_user(text: &[u8]) -> bool
    ensures { result ≡ is_user text.now }
{
    match text {
        [] => false,
        [b'@' | b'&' | b'~' | b'$', ..] => false,
        _ => true,
    }
}

/// Whether it is the name of a user, or stands for a group or an alias.
pub(crate) fn is_word(text: &[u8]) -> bool
    ensures { result ≡ is_word text.now }
{
    match text {
        [] => false,
        [b'~' | b'$', ..] => false,
        _ => true,
    }
}

/// Whether it begins with `~`.
pub(crate) fn is_negated(key: &[u8]) -> bool
    ensures { result ≡ is_negated key.now }
{
    match key {
        [b'~', ..] => true,
        _ => false,
    }
}

/// The principal, without the `~` that may stand before it.
pub(crate) fn principal_of(key: &[u8]) -> &[u8]
    ensures { result.now ≡ principal_of key.now }
{
    match key {
        [b'~', rest @ ..] => rest,
        _ => key,
    }
}

/// The kind of a principal.
#[tactic(auto, unfolding(crate::specs::Words::who_of))]
pub(crate) fn who_of(principal: &[u8]) -> Option<Who>
    ensures { result ≡ who_of principal.now }
{
    if principal == b"*".as_slice() {
        return Some(Who::All);
    }
    if principal == b"$authenticated".as_slice() {
        return Some(Who::LoggedIn);
    }
    if principal == b"$anonymous".as_slice() {
        return Some(Who::Anonymous);
    }
    if is_word(principal) {
        Some(Who::Word)
    } else {
        None
    }
}

/// What an access value gives.
#[tactic(auto, unfolding(crate::specs::Words::right_of))]
pub(crate) fn right_of(value: &[u8]) -> Option<Right>
    ensures { result ≡ right_of value.now }
{
    if value.is_empty() {
        return Some(Right::No);
    }
    if value == b"r".as_slice() {
        return Some(Right::Read);
    }
    if value == b"rw".as_slice() {
        return Some(Right::Write);
    }
    None
}
