//! What davsvn meets outside of itself, as traits: where bytes come from, where they go, files, what
//! tells the time, and what keeps new revisions. Each trait has a form in memory with calls that fail
//! as its maker says, and one that never fails; a clock can't fail, and has one form.
//!
//! What an object holds is told to contracts where it can be known: always by the forms in memory,
//! and not by a real file or stream. Each object that can fail has a count of faults, which is always
//! told: a call fails only where it rises.
#![tactic(auto)]

mod accepted;
mod calls;
mod clock;
mod door;
mod door_book;
mod door_record;
mod file_got;
mod file_table;
mod files;
mod got;
mod keeper;
mod mem_clock;
mod mem_door;
mod mem_files;
mod mem_keeper;
mod mem_sink;
mod mem_source;
mod put;
mod serve_end;
mod sink;
mod source;
mod sure_door;
mod sure_files;
mod sure_keeper;
mod sure_sink;
mod sure_source;

pub use accepted::Accepted;
pub use clock::Clock;
pub use door::Door;
pub use door_record::DoorRecord;
pub use file_got::FileGot;
pub use files::Files;
pub use got::Got;
pub use keeper::Keeper;
pub use mem_clock::MemClock;
pub use mem_door::MemDoor;
pub use mem_files::MemFiles;
pub use mem_keeper::MemKeeper;
pub use mem_sink::MemSink;
pub use mem_source::MemSource;
pub use put::Put;
pub use serve_end::ServeEnd;
pub use sink::Sink;
pub use source::Source;
pub use sure_door::SureDoor;
pub use sure_files::SureFiles;
pub use sure_keeper::SureKeeper;
pub use sure_sink::SureSink;
pub use sure_source::SureSource;
