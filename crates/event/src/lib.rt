// Events, as the bench knows them, made from plain numbers, and why one is refused.
#![tactic(auto)]

mod events;
mod kind;
mod refusal;

pub use events::{Event, Touch, event_of};
pub use kind::Kind;
pub use refusal::{Refusal, refused_answer};
