// What an event does at the channel that it names, kind by kind, and the one step of a channel by value: the act of the event,
// and what settles after it.
#![tactic(auto)]

mod kinds;

ghost use Rattle.std.specs.Prelude.{◌≡◌};
ghost use Rattle.event.specs.Events.{TouchIn};
ghost use Rattle.channel.specs.Channel.{WellFormed};
ghost use Rattle.acts.specs.Step.{step_at};

use channel::{Channel, Step};
use event::Touch;
pub use kinds::act;

// What an event that names the channel comes to, where its values are in range.
#[tactic(auto, unfolding(crate::specs::Step::step_at))]
pub fn step(channel: Channel, touch: Touch) -> Step
    requires { WellFormed channel × TouchIn touch }
    ensures { result ≡ step_at channel touch }
{
    channel.settled(act(channel, touch))
}
