//! What davsvn answers: the refusals, and the bytes of replies (RFC 9110; RFC 9112, section 4;
//! RFC 4918, section 16).
#![tactic(auto)]

mod allow_kind;
mod client;
mod detail;
mod error_body;
mod fields;
mod laws;
mod method;
mod multistatus;
mod no_memory;
mod refusal;
mod refusals;
mod tables;
mod writing;

pub use allow_kind::AllowKind;
pub use client::Client;
pub use dsv_base::{Field, Form, Reply};
pub use laws::{codes_are_in_order, ending_codes, methods_read_back, statuses_have_reasons};
pub use method::{Method, allow_list};
pub use multistatus::multistatus_reply;
pub use no_memory::no_memory_bytes;
pub use refusal::Refusal;
pub use refusals::{refusal_bytes, refusal_reply};
pub use writing::reply_bytes;
