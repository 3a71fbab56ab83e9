/// The kinds of principal.
#[derive(Clone, Copy, Debug, PartialEq, Eq)]
pub(crate) enum Who {
    All,
    LoggedIn,
    Anonymous,
    /// A user name, `@GROUP` or `&ALIAS`: the one word of the line.
    Word,
}
