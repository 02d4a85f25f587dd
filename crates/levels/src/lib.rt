// What the stored registers say of the queues: their room, what clears and loads them, and the trigger levels.
#![tactic(auto)]

mod queues;
mod trigger;

pub use queues::{clears, loads, room, transmits};
pub use trigger::{Characters, Spaces, halt_level, receive_level, resume_level, transmit_level};
