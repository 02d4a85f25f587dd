// What stands beside the queues where a sender is paused by character.
ghost use Rattle.std.specs.Prelude.{◌≡◌};
ghost use Rattle.registers.specs.Writes.{with_any};
ghost use Rattle.registers.specs.Pairs.{pair_at};
ghost use Rattle.flow.specs.Flow.{stopped_by, flow_heard, efr_written, flow_written, sends_waiting, free_to_load, flow_sent, flow_turned, flow_settled};

use bits::{bit, chosen};
use levels::{Characters, transmits};
use lines::latch_driven;
use receiver::Gate;
use registers::{Pair, Register, Setting, Settings, Write, chooses_pair};

// Whether an Xoff has stopped loading, which is the Xoff flag too; the second latch, on or off; and the byte that waits, 0
// where none does. C sees the record's layout, so `waits` and `byte` stand side by side and are no Option.
#[repr(C)]
#[derive(Clone, Copy)]
pub struct Flow {
    pub stopped: bool,
    pub latch: bool,
    pub waits: bool,
    pub byte: u8,
}

// A stop after an arrival.
#[tactic(auto, unfolding(crate::specs::Flow::stopped_by))]
fn stopped_by(stopped: bool, settings: Settings, gate: Gate) -> bool
    ensures { result ≡ stopped_by stopped settings gate }
{
    match gate {
        Gate::Passes => stopped & !bit(settings.mcr, 5),
        Gate::Off | Gate::Elsewhere => stopped,
        Gate::Xoff => true,
        Gate::Xon => false,
    }
}

impl Flow {
    // After an arrival.
    #[tactic(auto, unfolding(crate::specs::Flow::flow_heard))]
    pub fn heard(self, settings: Settings, gate: Gate) -> Flow
        ensures { result ≡ flow_heard self settings gate }
    {
        Flow {
            stopped: stopped_by(self.stopped, settings, gate),
            ..self
        }
    }

    // After a write to EFR: one that compares nothing ends a stop, and one that sends nothing drops what waits.
    #[tactic(auto, unfolding(crate::specs::Flow::efr_written))]
    fn efr_written(self, efr: u8) -> Flow
        ensures { result ≡ efr_written self efr }
    {
        let sends = chooses_pair(efr, 2);
        Flow {
            stopped: self.stopped & chooses_pair(efr, 0),
            latch: self.latch | !sends,
            waits: self.waits & sends,
            byte: chosen(sends, self.byte, 0),
        }
    }

    // After a write.
    #[tactic(auto, unfolding(crate::specs::Flow::flow_written))]
    pub fn written(self, write: Write) -> Flow
        ensures { result ≡ flow_written self write.register write.byte }
    {
        match write.register {
            Register::Efr => self.efr_written(write.byte),
            _ => self,
        }
    }

    // Whether a slot loads the byte that waits.
    #[tactic(auto, unfolding(crate::specs::Flow::sends_waiting))]
    pub fn sends(self, settings: Settings) -> bool
        ensures { result ≡ sends_waiting self settings }
    {
        self.waits & transmits(settings)
    }

    // Whether the queue may be loaded from: there is no stop, and nothing goes before it.
    #[tactic(auto, unfolding(crate::specs::Flow::free_to_load))]
    pub fn frees(self) -> bool
        ensures { result ≡ free_to_load self }
    {
        !self.stopped & !self.waits
    }

    // After a slot that loads the byte that waits, or does not.
    #[tactic(auto, unfolding(crate::specs::Flow::flow_sent))]
    pub fn sent(self, sends: bool) -> Flow
        ensures { result ≡ flow_sent self sends }
    {
        Flow {
            waits: self.waits & !sends,
            byte: chosen(sends, 0, self.byte),
            ..self
        }
    }

    // With the second latch as it is now: where it has turned, a byte of the pair waits.
    #[tactic(auto, using(bits::specs::Conditions::ne_differs), unfolding(crate::specs::Flow::flow_turned))]
    fn turned(self, pair: Pair, latch: bool) -> Flow
        ensures { result ≡ flow_turned self pair latch }
    {
        if self.latch != latch {
            return Flow {
                latch,
                waits: true,
                byte: chosen(latch, pair.xon, pair.xoff),
                ..self
            };
        }
        self
    }

    // After the act of an event, with so many characters in the receive queue and the stored registers `settings`: those
    // `before` with one of them set, or none. The pair is put together only where one is sent, and from those before: from `settings`
    // it took a twentieth more of the step.
    #[tactic(auto, unfolding(crate::specs::Flow::flow_settled))]
    pub fn settled(
        self,
        before: Settings,
        setting: Option<Setting>,
        settings: Settings,
        received: Characters,
    ) -> Flow
        ensures { result ≡ flow_settled self settings (pair_at (with_any before setting) 2) received }
    {
        if chooses_pair(settings.efr, 2) {
            let latch = latch_driven(settings, received, self.latch);
            return self.turned(before.pair_with(setting, 2), latch);
        }
        self
    }
}
