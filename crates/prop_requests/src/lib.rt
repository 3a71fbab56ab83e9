//! What a PROPFIND answers: the properties of a node or a revision (RFC 4918, sections 9.1, 14 and 15;
//! Subversion's notes on WebDAV).
#![tactic(auto)]

mod answering;
mod asked_as;
mod known_level;
mod propfind_fault;
mod sight;
mod spot;
mod telling;

pub use answering::propfind;
pub use propfind_fault::PropfindFault;
pub use sight::Sight;
