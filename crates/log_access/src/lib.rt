//! What a user is shown of a repository: the definitions that reports and replies stand on, and how much
//! of the record of a revision a user is shown.
#![tactic(auto)]

mod level;
mod levels;

pub use level::Level;
pub use levels::level_of;
