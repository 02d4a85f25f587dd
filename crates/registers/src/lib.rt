// The stored registers of a channel, a machine of their own: what they become depends on them and the event alone.
#![tactic(auto)]

mod pair;
mod register;
mod settings;

pub use pair::{Pair, chooses_pair};
pub use register::Register;
pub use settings::{Setting, Settings, Write};
