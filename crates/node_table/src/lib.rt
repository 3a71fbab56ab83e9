//! One growing table of nodes that the trees of a repository share, and what is read of it.
#![tactic(auto)]

mod depths;
mod heights;
mod lines;
mod names;
mod new_cells;
mod places;
mod reading;
mod table;

pub use depths::depth;
pub use heights::{fits_below, height_with};
pub use lines::line_at;
pub use names::first_name;
pub use places::{below_root, place_at};
pub use reading::{cell_of, child_at};
pub use table::Table;
