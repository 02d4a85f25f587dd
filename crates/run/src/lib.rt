// A run over a whole input: its events one after the other on a new device, and a line of text for each answer.
#![tactic(auto)]

mod cursor;
mod line;

pub use cursor::{Cursor, Filled};
