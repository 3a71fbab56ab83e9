ghost use Rattle.std.specs.Prelude.{◌≡◌, codes, nat_eq};
ghost use Rattle.std.specs.Option.{option_copied};
ghost use Rattle.dav_names.specs.Targets.{behind, behind_scheme, from_slash, target_path, after_root, without_slash};

/// The path of a target: all of it, or what stands behind a scheme and an authority, which ends at
/// the next `/` and isn't looked at (RFC 9112, section 3.2.2).
#[tactic(auto, unfolding(crate::specs::Targets::target_path))]
pub fn target_path(target: &[u8]) -> Option<&[u8]>
    ensures { option_copied result ≡ target_path target.now }
{
    match behind_scheme(target) {
        None => Some(target),
        Some(rest) => from_slash(rest),
    }
}

fn behind_scheme(target: &[u8]) -> Option<&[u8]>
    ensures { option_copied result ≡ behind_scheme target.now }
{
    match behind(target, b"http://") {
        None => behind(target, b"https://"),
        Some(rest) => Some(rest),
    }
}

/// What stands behind `front`, in any case of its letters.
fn behind<'a>(text: &'a [u8], front: &[u8]) -> Option<&'a [u8]>
    ensures { option_copied result ≡ behind front.now text.now }
{
    if text.len() < front.len() {
        return None;
    }
    let (start, rest) = text.split_at(front.len());
    if start.eq_ignore_ascii_case(front) {
        Some(rest)
    } else {
        None
    }
}

/// The text from its first `/` on.
fn from_slash(text: &[u8]) -> Option<&[u8]>
    ensures { option_copied result ≡ from_slash text.now }
{
    let mut rest = text;
    'bytes: while let [byte, after @ ..] = rest {
        if *byte == b'/' {
            return Some(rest);
        }
        rest = after;
    }
    None
}

/// What stands behind the root.
pub fn after_root<'a>(root: &[u8], path: &'a [u8]) -> Option<&'a [u8]>
    ensures { option_copied result ≡ after_root root.now path.now }
{
    path.strip_prefix(root)
}

/// The text without one `/` at its end.
#[tactic(auto, unfolding(crate::specs::Targets::without_slash))]
pub fn without_slash(text: &[u8]) -> &[u8]
    ensures { result.now ≡ without_slash text.now }
{
    match text {
        [before @ .., b'/'] => before,
        _ => text,
    }
}
