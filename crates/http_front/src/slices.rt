ghost use Rattle.std.specs.Prelude.{◌≡◌, ◌≤◌, length, take, drop};

/// The bytes, or as many of them in front as are wanted.
pub(crate) fn front_bytes(bytes: &[u8], most: usize) -> &[u8]
    ensures { result.now ≡ take most bytes.now }
{
    if bytes.len() > most {
        return &bytes[..most];
    }
    bytes
}

/// The bytes behind so many, or none where there are no more.
pub(crate) fn rest_from(bytes: &[u8], at: usize) -> &[u8]
    ensures { result.now ≡ drop at bytes.now }
{
    if at < bytes.len() {
        return &bytes[at..];
    }
    &bytes[bytes.len()..]
}

/// Takes so many bytes out of the front.
pub(crate) fn drop_front(bytes: &mut Vec<u8>, count: usize)
    requires { count ≤ length bytes.old.items }
    ensures { bytes.new.items ≡ drop count bytes.old.items }
{
    let len = bytes.len() - count;
    bytes.rotate_left(count);
    bytes.truncate(len);
}
