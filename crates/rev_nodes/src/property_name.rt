ghost use Rattle.std.specs.Prelude.{◌≡◌};
ghost use Rattle.std.specs.List.{list_all};
ghost use Rattle.rev_nodes.specs.PropertyNames.{is_name_byte, is_local_name, is_property_name, is_revision_property};

/// Whether `name` can be a property's: a local name, or `svn:` and then a local name. A local name
/// is 1 to 200 letters, digits, `-`, `.` and `_`, of which the first is a letter or `_`.
#[tactic(auto, unfolding(crate::specs::PropertyNames::is_property_name))]
pub fn is_property_name(name: &[u8]) -> bool
    ensures { result ≡ is_property_name name.now }
{
    if name.starts_with(b"svn:") {
        return is_local_name(&name[4..]);
    }
    is_local_name(name)
}

/// Whether `name` can be that of a revision's own property: its author and its date are none.
#[tactic(auto, unfolding(crate::specs::PropertyNames::is_revision_property))]
pub fn is_revision_property(name: &[u8]) -> bool
    ensures { result ≡ is_revision_property name.now }
{
    if !is_property_name(name) {
        return false;
    }
    name != b"svn:author".as_slice() && name != b"svn:date".as_slice()
}

fn is_local_name(name: &[u8]) -> bool
    ensures { result ≡ is_local_name name.now }
{
    match name {
        [] => false,
        [first, rest @ ..] => {
            if !(first.is_ascii_alphabetic() || *first == b'_') {
                return false;
            }
            if rest.len() > 199 {
                return false;
            }
            are_name_bytes(rest)
        }
    }
}

fn are_name_bytes(rest: &[u8]) -> bool
    ensures { result ≡ list_all is_name_byte rest.now }
{
    rest.iter().all(|b| b.is_ascii_alphanumeric() || *b == b'-' || *b == b'.' || *b == b'_')
}
