//! Edits over a tree of the table, settled into new cells of the table.
#![tactic(auto)]

mod adding;
mod cutting;
mod heights;
mod inside;
mod listing;
mod made;
mod merging;
mod raising;
mod settling;

pub use settling::settle;
