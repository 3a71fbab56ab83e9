ghost use Rattle.std.specs.Prelude.{◌≡◌, MatchOption};
ghost use Rattle.tree_edits.specs.Rests.{IsRest};
ghost use Rattle.tree_edits.specs.Reading.{IsLastName, IsNextName};

use node_table::first_name;

/// The first name of a rest of a path's text, the text of the path to it, and what stands after
/// that, if anything does.
pub fn next_name<'a>(
    text: &'a [u8],
    path: &[u8],
    rest: &'a [u8],
) -> Option<(&'a [u8], &'a [u8], &'a [u8])>
    requires { IsRest text.now path.now rest.now }
    ensures { MatchOption result (IsLastName text.now path.now rest.now)
        (λ x. IsNextName text.now path.now rest.now x.0.now x.1.now x.2.now) }
{
    match first_name(rest) {
        None => None,
        Some((name, after)) => {
            let end = text.len() - after.len() - 1;
            Some((name, &text[..end], after))
        }
    }
}
