//! Tables of rows on texts, paths, locks, targets, documents, bodies and replies, and on the objects in memory: for
//! each table what is answered to a row.
#![tactic(auto)]

mod bodies;
mod dates;
mod documents;
mod locks;
mod outside;
mod paths;
mod reading;
mod refusals;
mod replies;
mod streams;
mod tables;
mod targets;
mod texts;

pub use outside::moments_in;
pub use tables::answer;
