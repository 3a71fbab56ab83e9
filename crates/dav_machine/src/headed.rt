/// What the headers of a request say, by its method: one variant for each method that is answered yet.
#[derive(Clone, Copy, Debug, PartialEq, Eq)]
pub enum Headed {
    Options,
    Get,
    Head,
    /// Properties are asked for, of the children too or not.
    Propfind { children: bool },
}
