use crate::command::FileNames;

/// What the command `serve` is asked for.
#[derive(Clone, Copy, Debug)]
pub struct Service<'a> {
    pub files: FileNames<'a>,
    /// The host whose address is listened on.
    pub host: &'a [u8],
    pub port: u16,
    /// How many doors are served side by side, 1 to 64.
    pub workers: u32,
    /// How many connections each door takes at most, where that is limited; at least 1.
    pub each: Option<u32>,
}
