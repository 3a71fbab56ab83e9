/// Who a reply is written for, as far as replies differ by it.
#[derive(Clone, Copy, Debug, PartialEq, Eq)]
pub enum Client {
    /// Anyone who doesn't name itself as a client of Subversion: davsvn's own client, browsers.
    Plain,
    /// A client of Subversion, which goes by Subversion's own numbers of errors.
    Guest,
}
