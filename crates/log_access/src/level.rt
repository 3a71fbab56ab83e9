/// How much of the record of a revision a user is shown, as Subversion's `svn_repos.h` has it in
/// `svn_repos_revision_access_level_t`.
#[derive(Clone, Copy, Debug, PartialEq, Eq)]
pub enum Level {
    /// All of it: every property, author and date, and all changed paths with their sources.
    Full,
    /// Author and date, and the readable changed paths, each with its source where that is readable.
    Partial,
    /// Nothing.
    None,
}
