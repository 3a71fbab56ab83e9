/// The first word of a command.
#[derive(Clone, Copy, Debug, PartialEq, Eq)]
pub enum Verb {
    Pipe,
    AccessOf,
    Serve,
}
