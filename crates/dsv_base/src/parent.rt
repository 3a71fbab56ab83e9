ghost use Rattle.std.specs.Prelude.{◌≡◌};
ghost use Rattle.std.specs.Option.{option_copied};
ghost use Rattle.dsv_base.specs.Paths.{parent_text, before_last_slash, or_root, name_of};

/// The text of the directory that a path with this text stands in; `None` for `/`.
#[tactic(auto, unfolding(crate::specs::Paths::parent_text))]
pub fn parent_text(path: &[u8]) -> Option<&[u8]>
    ensures { option_copied result ≡ parent_text path.now }
{
    if path == b"/".as_slice() {
        return None;
    }
    Some(or_root(before_last_slash(path)))
}

fn or_root(front: &[u8]) -> &[u8]
    ensures { result.now ≡ or_root front.now }
{
    match front {
        [] => b"/",
        _ => front,
    }
}

/// What stands behind the last `/` of a path.
#[tactic(auto, unfolding(crate::specs::Paths::name_of))]
pub(crate) fn name_text(path: &[u8]) -> &[u8]
    ensures { result.now ≡ name_of path.now }
{
    let front = before_last_slash(path);
    if front.len() < path.len() {
        &path[front.len() + 1..]
    } else {
        &[]
    }
}

/// What stands before the last `/`, or nothing where there is none.
pub(crate) fn before_last_slash(path: &[u8]) -> &[u8]
    ensures { result.now ≡ before_last_slash path.now }
{
    let mut front = path;
    'back: while let [before @ .., last] = front {
        if *last == b'/' {
            return before;
        }
        front = before;
    }
    front
}
