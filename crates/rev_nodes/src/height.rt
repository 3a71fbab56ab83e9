/// How long the longest ways of names below a node are, as far as the limits of paths need it.
#[derive(Clone, Copy, Debug, PartialEq, Eq)]
pub struct Height {
    /// The names of the way that has most of them; 255 stands for more, too.
    pub names: u8,
    /// The bytes of the longest way, with a slash before each name; 65,535 stands for more, too.
    pub bytes: u16,
}
