//! The repository machine: what each request is answered, as a function of the state that a history of
//! changes gives, and of what this state shows to the user who sent it.
#![tactic(auto)]

mod aim;
mod answer;
mod asked;
mod asked_path;
mod call;
mod chain;
mod client;
mod depth;
mod effect;
mod event;
mod headed;
mod hub;
mod laws;
mod listing;
mod media;
mod options;
mod outgoing;
mod present;
mod properties;
mod reading;
mod replies;
mod replying;
mod solo;
mod turn;

pub use answer::Answer;
pub use call::Call;
pub use chain::is_head;
pub use client::client_of;
pub use effect::Effect;
pub use event::Event;
pub use hub::Hub;
pub use laws::{
    hidden_answered_alike, plain_answered_alike, read_by_the_view, refused_alike,
    shown_alike_answered_alike,
};
pub use outgoing::Outgoing;
pub use solo::Solo;
pub use turn::Turn;
