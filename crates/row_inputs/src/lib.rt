//! Tables of rows on what is read whole: scripts and the trees that they make, rules and the rights that they
//! give, and users with the requests that come from them. For each table it is said what is answered to a row.
#![tactic(auto)]

mod drafts;
mod levels;
mod messages;
mod nodes;
mod reading;
mod requests;
mod rights;
mod scripts;
mod tables;

pub use reading::{rules_of, trees_of, users_of};
pub use tables::answer;
