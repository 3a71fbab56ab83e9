use authz_file::Right;
use dsv_base::Path;

/// What the words of the command line ask for.
#[derive(Debug, Drop)]
pub enum Command<'a> {
    /// `pipe`: one connection is served from the input to the output.
    Pipe(FileNames<'a>),
    /// `accessof`: what somebody may do at a path.
    AccessOf(Question<'a>, Path),
}

/// The files of a repository, by name.
#[derive(Clone, Copy, Debug)]
pub struct FileNames<'a> {
    pub script: &'a [u8],
    pub rules: &'a [u8],
    pub users: &'a [u8],
}

/// Whose right is asked for, by which rules.
#[derive(Clone, Copy, Debug)]
pub struct Question<'a> {
    /// The name of the rules file.
    pub rules: &'a [u8],
    /// The name of the repository, which the sections `[REPOS:PATH]` go by.
    pub repos: &'a [u8],
    /// The user; none is somebody who isn't logged in.
    pub user: Option<&'a [u8]>,
    /// The right that it has to be, where one is told.
    pub expected: Option<Right>,
    /// Whether the right has to be held at every path under this one, too.
    pub recursive: bool,
}
