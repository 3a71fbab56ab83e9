//! Who may read or write at which path of one repository, by the rules of a file (Subversion
//! Book, chapter "Server Configuration", "Path-Based Authorization").
#![tactic(auto)]

mod demand;
mod matching;
mod order;
mod policy;
mod sections;

pub use policy::Policy;
