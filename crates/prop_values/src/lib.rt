//! The properties of a node or a revision, and how they are told (RFC 4918, sections 9.1, 14 and 15;
//! Subversion's notes on WebDAV).
#![tactic(auto)]

mod contents;
mod dead;
mod found;
mod href;
mod live;
mod live_names;
mod locks;
mod names;
mod query;
mod response;
mod subject;
mod tag;
mod told;
mod value;
mod whole;

pub use live::Live;
pub use query::Query;
pub use response::write_response;
pub use subject::{NodePlace, Subject};
pub use told::Told;
