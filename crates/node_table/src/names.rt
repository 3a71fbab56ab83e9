ghost use Rattle.std.specs.Prelude.{◌≡◌, ◌<◌, ◌∷◌, ◌==◌, [], false, length, take, slice_index, All, IfSome, IfNone, MatchOption};
ghost use Rattle.dsv_base.specs.Paths.{components, is_slash};

/// Where the first name ends.
fn name_end(text: &[u8]) -> Option<usize>
    ensures none { IfNone result (All (λ b. (b == 47) ≡ false) text.now) }
    ensures within { IfSome result (λ at. at < length text.now) }
    ensures at { IfSome result (λ at. slice_index text.now at ≡ 47) }
    ensures before { IfSome result (λ at. All (λ b. (b == 47) ≡ false) (take at text.now)) }
{
    text.iter().position(|b| *b == b'/')
}

/// The first name, and what stands after it.
pub fn first_name(text: &[u8]) -> Option<(&[u8], &[u8])>
    ensures cut { MatchOption result (components text.now ≡ text.now ∷ [])
        (λ x. components text.now ≡ x.0.now ∷ components x.1.now) }
    ensures shorter { IfSome result (λ x. length x.1.now < length text.now) }
{
    match name_end(text) {
        None => None,
        Some(at) => Some((&text[..at], &text[at + 1..])),
    }
}
