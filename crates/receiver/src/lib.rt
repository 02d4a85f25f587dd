// What the receiver makes of an arrival, and what it shows in LSR.
#![tactic(auto)]

mod arrival;
mod line;

pub use arrival::{Arrival, Gate, Heard};
pub use line::{Line, Status, fate};
