// What settles after the act of an event, whatever its kind: the latch, the second latch, the RTS flag and the THR flag.
ghost use Rattle.std.specs.Prelude.{◌≡◌};
ghost use Rattle.channel.specs.Channel.{WellFormed};
ghost use Rattle.channel.specs.Settle.{ActIn, StepIn, moment_of, moment_at, settled_of, after_step};

use crate::channel::Channel;
use crate::state::State;
use interrupts::Moment;
use levels::{Characters, Spaces};
use lines::{Shift, latch_after, rts_asserted, spaces, thr_condition};
use queue::Moved;
use registers::{Setting, Settings};

// The register that is set, if one is, the lines and what becomes of each queue; the reply, and whether the device is reset.
#[derive(Clone, Copy)]
pub struct Act {
    pub setting: Option<Setting>,
    pub state: State,
    pub rx: Moved,
    pub tx: Moved,
    pub reply: u16,
    pub resets: bool,
}

// All that a channel is after an event but for the places of its queues, and which stored register was set, if one was; the reply,
// and whether the device is reset: an act with its lines settled. The registers after it stand here either way, since as an Option of
// all fifteen, by `map` and `unwrap_or`, they took a tenth more of the step.
#[derive(Clone, Copy)]
pub struct Step {
    pub setting: Option<Setting>,
    pub settings: Settings,
    pub state: State,
    pub rx: Moved,
    pub tx: Moved,
    pub reply: u16,
    pub resets: bool,
}

#[tactic(auto, unfolding(crate::specs::Settle::moment_of))]
fn moment(settings: Settings, latch: bool, shift: Shift, free: Spaces) -> Moment
    ensures { result ≡ moment_of settings latch shift free }
{
    Moment {
        rts: rts_asserted(settings, latch, shift.busy(free)),
        thr: thr_condition(settings, free),
    }
}

impl Channel {
    // RTS and the THR condition.
    #[tactic(auto, unfolding(crate::specs::Settle::moment_at))]
    fn moment(self) -> Moment
        requires { WellFormed self }
        ensures { result ≡ moment_at self }
    {
        moment(
            self.settings,
            self.state.latch,
            self.state.shift,
            spaces(self.tx.count),
        )
    }

    // What an act comes to with what is settled after it.
    #[tactic(auto, unfolding(crate::specs::Settle::settled_of))]
    pub fn settled(self, act: Act) -> Step
        requires { WellFormed self × ActIn act }
        ensures { result ≡ settled_of self act }
    {
        let settings = match act.setting {
            Some(setting) => self.settings.with(setting),
            None => self.settings,
        };
        let received = Characters(act.rx.count);
        let latch = latch_after(settings, received, act.state.latch);
        let flow = act.state.flow;
        let paused = flow.settled(self.settings, act.setting, settings, received);
        let now = moment(settings, latch, act.state.shift, spaces(act.tx.count));
        let flags = act.state.flags.settled(self.moment(), now);
        let flagged = act.state.with_flags(flags);
        Step {
            setting: act.setting,
            settings,
            state: flagged.with_latch(latch).with_flow(paused),
            rx: act.rx,
            tx: act.tx,
            reply: act.reply,
            resets: act.resets,
        }
    }

    // The channel by value after a step.
    #[tactic(auto, unfolding(crate::specs::Settle::after_step))]
    pub fn after(self, step: Step) -> Channel
        requires { StepIn step }
        ensures { result ≡ after_step self step }
    {
        Channel {
            settings: step.settings,
            state: step.state,
            rx: self.rx.after(step.rx),
            tx: self.tx.after(step.tx),
        }
    }
}
