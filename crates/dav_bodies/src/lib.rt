//! The bodies of requests: what a document asks for.
#![tactic(auto)]

mod body;
mod body_fault;
mod body_kind;
mod elements;
mod propfinds;
mod reading;
mod said;

pub use body::{Body, Wanted};
pub use body_fault::BodyFault;
pub use body_kind::BodyKind;
pub use reading::read_body;
