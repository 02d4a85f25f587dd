// One serial channel: its stored registers, its lines and its two queues, what is seen of it, and what settles after an act.
#![tactic(auto)]

mod channel;
mod settle;
mod state;

pub use channel::Channel;
pub use settle::{Act, Step};
pub use state::State;
