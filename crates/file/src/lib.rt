// The event file: its numbers, and the event at a place of it.
#![tactic(auto)]

mod number;
mod reading;

pub use reading::{Reading, read_at};
