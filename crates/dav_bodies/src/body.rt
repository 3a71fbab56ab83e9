use dsv_base::{List, PropName};

/// The properties that a PROPFIND asks for.
#[derive(Debug, Drop)]
pub enum Wanted {
    /// All.
    All,
    /// Those of these names, in the order in which they are asked for, and as often.
    These(List<PropName>),
}

/// What a body asks for, by its kind.
#[derive(Debug, Drop)]
pub enum Body {
    /// These properties.
    Propfind(Wanted),
}
