//! All that the program davsvn does, as one call over the world that it is given: it reads the words of
//! the command line, serves a connection, and answers questions on the rights that a rules file gives.
#![tactic(auto)]

mod asking;
mod command;
mod end;
mod inputs;
mod opening;
mod options;
mod pipe;
mod running;
mod served;
mod service;
mod service_words;
mod serving;
mod serving_doors;
mod status;
mod unread;
mod verb;
mod words;
mod work;
mod world;

pub use running::run;
pub use served::Served;
pub use service_words::{listen_address, script_of};
pub use serving::run_serve;
pub use status::Status;
pub use world::World;
