//! Files of rows as a person writes them: blocks of lines, texts with escapes, forms with columns; what a row
//! of a table gives and how its answer is written; and what is told of a row that doesn't hold.
#![tactic(auto)]

mod answer;
mod block;
mod book;
mod differences;
mod expansion;
mod form;
mod given;
mod line;
mod names;
mod numbers;
mod report;
mod row;

pub use answer::Answer;
pub use block::{Block, blocks_of};
pub use book::Book;
pub use differences::difference;
pub use expansion::expand;
pub use form::filled;
pub use given::Given;
pub use line::Line;
pub use names::named;
pub use numbers::{numbers_in, revision_in};
pub use report::Report;
pub use row::Row;
