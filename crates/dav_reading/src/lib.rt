//! Documents in XML that are read: their element with its namespaces, or why they aren't.
#![tactic(auto)]

mod asides;
mod contents;
mod document;
mod form_place;
mod forms;
mod heads;
mod law;
mod line_ends;
mod mode;
mod reading;
mod references;
mod run;
mod runs;
mod starts;
mod tags;
mod tree_fault;

pub use document::Document;
pub use form_place::FormPlace;
pub use law::written_is_read;
pub use reading::{read_document, read_tree};
pub use tree_fault::TreeFault;
