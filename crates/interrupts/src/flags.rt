// The flags that interrupts are made from.
ghost use Rattle.std.specs.Prelude.{◌≡◌};
ghost use Rattle.interrupts.specs.Flags.{flags_cleared, flags_arrived, flags_pins, flags_settled};

use crate::interrupt::Interrupt;

#[repr(C)]
#[derive(Clone, Copy)]
pub struct Flags {
    pub special: bool,
    pub cts: bool,
    pub rts: bool,
    pub thr: bool,
}

// RTS and the THR condition at one moment, to be compared with another.
#[derive(Clone, Copy)]
pub struct Moment {
    pub rts: bool,
    pub thr: bool,
}

impl Flags {
    // After a read that shows an interrupt: only one of IIR shows any.
    #[tactic(auto, unfolding(crate::specs::Flags::flags_cleared))]
    pub fn cleared(self, shown: Interrupt) -> Flags
        ensures { result ≡ flags_cleared self shown }
    {
        match shown {
            Interrupt::Transmit => Flags { thr: false, ..self },
            Interrupt::Special => Flags {
                special: false,
                ..self
            },
            Interrupt::Flow => Flags {
                cts: false,
                rts: false,
                ..self
            },
            Interrupt::LineStatus
            | Interrupt::Timeout
            | Interrupt::Receive
            | Interrupt::Modem
            | Interrupt::Nothing => self,
        }
    }

    // After an arrival that is a special match, or is none.
    #[tactic(auto, unfolding(crate::specs::Flags::flags_arrived))]
    pub fn arrived(self, special: bool) -> Flags
        ensures { result ≡ flags_arrived self special }
    {
        Flags {
            special: self.special | special,
            ..self
        }
    }

    // After new pin values that turn CTS off, or do not.
    #[tactic(auto, unfolding(crate::specs::Flags::flags_pins))]
    pub fn pins(self, off: bool) -> Flags
        ensures { result ≡ flags_pins self off }
    {
        Flags {
            cts: self.cts | off,
            ..self
        }
    }

    // After the act: the RTS flag by RTS before and now, then the THR flag by its condition before and now.
    #[tactic(auto, using(crate::specs::Laws::flags_in_one))]
    pub fn settled(self, before: Moment, after: Moment) -> Flags
        ensures { result ≡ flags_settled self before after }
    {
        Flags {
            rts: self.rts | (before.rts & !after.rts),
            thr: after.thr & (self.thr | !before.thr),
            ..self
        }
    }
}
