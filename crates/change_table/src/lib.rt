//! What the changes of a commit did last to each path that they name, told by one pass over them.
#![tactic(auto)]

mod law;
mod named_path;
mod row;
mod table;

pub use law::one_pass_tells_changed_paths;
pub use named_path::NamedPath;
pub use table::ChangeTable;
