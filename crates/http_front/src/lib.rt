//! HTTP/1.1 requests from bytes that come piece by piece, with their bodies, and the users file.
#![tactic(auto)]

mod advance;
mod advancing;
mod authorization;
mod byte_place;
mod chunk_step;
mod chunks;
mod connection;
mod data_end;
mod field_fault;
mod fields;
mod framing;
mod framings;
mod front;
mod head;
mod heads;
mod line_section;
mod login;
mod message_fault;
mod message_laws;
mod next;
mod phase;
mod request;
mod scan;
mod size_line;
mod size_lines;
mod slices;
mod stage;
mod user;
mod users;
mod users_fault;
mod users_file;

pub use dsv_base::{Field, Person};
pub use field_fault::FieldFault;
pub use front::Front;
pub use login::Login;
pub use message_laws::{
    cuts_dont_matter, later_cuts_dont_matter, one_outcome, one_reading, part_is_within,
    refused_stays, whole_is_within, whole_stays,
};
pub use next::Next;
pub use request::Request;
pub use users::Users;
pub use users_fault::UsersFault;
pub use users_file::read_users;
