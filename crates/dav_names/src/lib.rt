//! Request targets: what each names, and how a resource is written as one (Subversion notes, "HTTP
//! protocol v2").
#![tactic(auto)]

mod absolute;
mod escaped;
mod parts;
mod read;
mod resource;
mod special;
mod target_fault;
mod txn_names;
mod write;

pub use dsv_base::TxnName;
pub use read::read_target;
pub use resource::Resource;
pub use target_fault::TargetFault;
pub use write::{root_of, write_target};
