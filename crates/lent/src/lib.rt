// The device that a caller keeps and lends, to each event in turn or to a drain.
#![tactic(auto)]

mod drains;
#[cfg(test)]
mod tests;
mod thin;

pub use drains::{Drained, drain, drain_into, fill};
pub use thin::advance;
