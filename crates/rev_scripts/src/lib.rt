//! The script that a repository is read from, and the text of a revision in one.
#![tactic(auto)]

mod build;
mod cursor;
mod item;
mod item_fault;
mod items;
mod laws;
mod parts;
mod reader;
mod script_fault;
mod told;
mod uuid;
mod writer;

pub use build::read_script;
pub use laws::scripts_read_aloud;
pub use script_fault::ScriptFault;
pub use writer::write_revision;
