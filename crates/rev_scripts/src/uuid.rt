ghost use Rattle.std.specs.Prelude.{◌≡◌};
ghost use Rattle.std.specs.Option.{option_copied};
ghost use Rattle.rev_scripts.specs.Uuids.{is_uuid, is_uuid_group, after_uuid_group, is_uuid_digit};
ghost use Rattle.std.specs.List.{list_all};

use dsv_base::cut_at;

/// Whether it is 36 bytes: lower-case hexadecimal digits in groups of 8, 4, 4, 4 and 12, with `-`
/// between.
#[tactic(auto, unfolding(crate::specs::Uuids::is_uuid))]
pub fn is_uuid_text(text: &[u8]) -> bool
    ensures { result ≡ is_uuid text.now }
{
    let Some(rest) = after_uuid_group(8, text) else {
        return false;
    };
    let Some(rest) = after_uuid_group(4, rest) else {
        return false;
    };
    let Some(rest) = after_uuid_group(4, rest) else {
        return false;
    };
    let Some(rest) = after_uuid_group(4, rest) else {
        return false;
    };
    is_uuid_group(12, rest)
}

/// What stands after a group of so many digits and the `-` that ends it.
fn after_uuid_group(count: usize, text: &[u8]) -> Option<&[u8]>
    ensures { option_copied result ≡ after_uuid_group count text.now }
{
    match cut_at(text, b'-') {
        None => None,
        Some((group, rest)) => {
            if is_uuid_group(count, group) {
                Some(rest)
            } else {
                None
            }
        }
    }
}

fn is_uuid_group(count: usize, group: &[u8]) -> bool
    ensures { result ≡ is_uuid_group count group.now }
{
    if group.len() != count {
        return false;
    }
    are_uuid_digits(group)
}

fn are_uuid_digits(group: &[u8]) -> bool
    ensures { result ≡ list_all is_uuid_digit group.now }
{
    group
        .iter()
        .all(|b| b.is_ascii_digit() || (*b >= b'a' && *b <= b'f'))
}
