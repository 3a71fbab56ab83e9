ghost use Rattle.std.specs.Prelude.{◌≡◌};
ghost use Rattle.std.specs.Str.{is_utf8};
ghost use Rattle.dsv_base.specs.Paths.{has_noncharacter};

/// Whether it is UTF-8.
pub fn is_utf8_text(text: &[u8]) -> bool
    ensures { result ≡ is_utf8 text.now }
{
    match std::str::from_utf8(text) {
        Ok(_) => true,
        Err(_) => false,
    }
}

/// Whether the bytes of U+FFFE or U+FFFF stand in it.
pub fn has_noncharacter_bytes(text: &[u8]) -> bool
    ensures { result ≡ has_noncharacter text.now }
{
    let mut rest = text;
    'bytes: while let [_, after @ ..] = rest {
        if rest.starts_with(&[0xef, 0xbf, 0xbe]) || rest.starts_with(&[0xef, 0xbf, 0xbf]) {
            return true;
        }
        rest = after;
    }
    false
}
