//! The two forms in which a repository tells dates: as Subversion writes them, and as HTTP does.
#![tactic(auto)]

mod calendar;
mod digits;
mod laws;
mod names;
mod texts;

pub use laws::{each_day_has_its_date, http_texts_differ, iso_texts_differ, no_day_has_another};
pub use texts::{http_text, iso_text};
