// The flags that interrupts are made from, the interrupts in rank order, and IIR.
#![tactic(auto)]

mod flags;
mod interrupt;

pub use flags::{Flags, Moment};
pub use interrupt::{Interrupt, pending};
