// The chip: two channels, new and reset, and the step that takes an event to an answer and the next record.
#![tactic(auto)]

mod device;
mod reset;
mod side;

pub use device::{Answer, Device, Outcome, answer_number, irq};
pub use side::Side;
