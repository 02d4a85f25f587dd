// The lines of a channel: all that it keeps beside its stored registers and its queues.
ghost use Rattle.std.specs.Prelude.{◌≡◌};
ghost use Rattle.channel.specs.State.{with_line, with_shift, with_modem, with_flags, with_latch, with_flow};

use flow::Flow;
use interrupts::Flags;
use lines::{Modem, Shift};
use receiver::Line;

#[repr(C)]
#[derive(Clone, Copy)]
pub struct State {
    pub line: Line,
    pub shift: Shift,
    pub modem: Modem,
    pub flags: Flags,
    pub latch: bool,
    pub flow: Flow,
}

// One function a field, since a field is no parameter.
impl State {
    #[tactic(auto, unfolding(crate::specs::State::with_line))]
    pub fn with_line(self, line: Line) -> State
        ensures { result ≡ with_line self line }
    {
        State { line, ..self }
    }

    #[tactic(auto, unfolding(crate::specs::State::with_shift))]
    pub fn with_shift(self, shift: Shift) -> State
        ensures { result ≡ with_shift self shift }
    {
        State { shift, ..self }
    }

    #[tactic(auto, unfolding(crate::specs::State::with_modem))]
    pub fn with_modem(self, modem: Modem) -> State
        ensures { result ≡ with_modem self modem }
    {
        State { modem, ..self }
    }

    #[tactic(auto, unfolding(crate::specs::State::with_flags))]
    pub fn with_flags(self, flags: Flags) -> State
        ensures { result ≡ with_flags self flags }
    {
        State { flags, ..self }
    }

    #[tactic(auto, unfolding(crate::specs::State::with_latch))]
    pub fn with_latch(self, latch: bool) -> State
        ensures { result ≡ with_latch self latch }
    {
        State { latch, ..self }
    }

    #[tactic(auto, unfolding(crate::specs::State::with_flow))]
    pub fn with_flow(self, flow: Flow) -> State
        ensures { result ≡ with_flow self flow }
    {
        State { flow, ..self }
    }
}
