// Software flow control: a stop by Xoff, and the Xoff or Xon of one's own that waits to be sent.
#![tactic(auto)]

mod flow;

pub use flow::Flow;
