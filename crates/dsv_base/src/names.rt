ghost use Rattle.std.specs.Prelude.{◌≡◌};
ghost use Rattle.std.specs.List.{list_all};
ghost use Rattle.dsv_base.specs.Names.{is_user_name, is_user_byte, is_repository_name, is_repository_byte};

use crate::text::{has_noncharacter_bytes, is_utf8_text};

/// Whether `name` can be a user's: 1 to 255 bytes of UTF-8 without `:`, without bytes below 32,
/// without 127, U+FFFE and U+FFFF.
#[tactic(auto, unfolding(crate::specs::Names::is_user_name))]
pub fn is_user_name(name: &[u8]) -> bool
    ensures { result ≡ is_user_name name.now }
{
    if name.is_empty() || name.len() > 255 {
        return false;
    }
    if !has_user_bytes(name) {
        return false;
    }
    if !is_utf8_text(name) {
        return false;
    }
    !has_noncharacter_bytes(name)
}

fn has_user_bytes(name: &[u8]) -> bool
    ensures { result ≡ list_all is_user_byte name.now }
{
    name.iter().all(|b| *b >= 32 && *b != 127 && *b != b':')
}

/// Whether `name` can be a repository's: 1 to 64 letters, digits, `-`, `_` and `.`, and not `.`
/// or `..`.
#[tactic(auto, unfolding(crate::specs::Names::is_repository_name))]
pub fn is_repository_name(name: &[u8]) -> bool
    ensures { result ≡ is_repository_name name.now }
{
    if name.is_empty() || name.len() > 64 {
        return false;
    }
    if !has_repository_bytes(name) {
        return false;
    }
    name != b".".as_slice() && name != b"..".as_slice()
}

fn has_repository_bytes(name: &[u8]) -> bool
    ensures { result ≡ list_all is_repository_byte name.now }
{
    name.iter().all(|b| b.is_ascii_alphanumeric() || *b == b'-' || *b == b'_' || *b == b'.')
}
