// The record of a channel, and what is seen of it from outside.
ghost use Rattle.std.specs.Prelude.{◌≡◌};
ghost use Rattle.channel.specs.Channel.{WellFormed, pending_at, rts_asserted, shown_at, status_of, read_of};

use crate::state::State;
use interrupts::{Interrupt, pending};
use levels::Characters;
use lines::{all_free, rts_asserted, spaces};
use queue::Queue;
use receiver::Status;
use registers::{Register, Settings};

// That it is well formed is a clause, as of a queue, and for the same reason.
#[repr(C)]
#[derive(Clone, Copy)]
pub struct Channel {
    pub settings: Settings,
    pub state: State,
    pub rx: Queue,
    pub tx: Queue,
}

impl Channel {
    // The highest interrupt pending.
    #[tactic(auto, unfolding(crate::specs::Channel::pending_at))]
    pub fn pending(self) -> Interrupt
        requires { WellFormed self }
        ensures { result ≡ pending_at self }
    {
        pending(
            self.settings,
            self.state.line,
            self.state.modem,
            self.state.flow,
            self.state.flags,
            Characters(self.rx.count),
            self.rx.any_mark(),
        )
    }

    // Whether RTS is asserted. The copy of the stored registers stands here for speed.
    #[tactic(auto, unfolding(crate::specs::Channel::rts_asserted))]
    pub fn rts(self) -> bool
        requires { WellFormed self }
        ensures { result ≡ rts_asserted self }
    {
        let settings = self.settings;
        let busy = self.state.shift.busy(spaces(self.tx.count));
        rts_asserted(settings, self.state.latch, busy)
    }

    // What LSR is made of.
    #[tactic(auto, unfolding(crate::specs::Channel::status_of))]
    pub fn status(self) -> Status
        requires { WellFormed self }
        ensures { result ≡ status_of self }
    {
        let sent = all_free(spaces(self.tx.count));
        Status {
            ready: self.rx.count != 0,
            overrun: self.state.line.overrun,
            mark: self.rx.oldest().mark,
            sent,
            idle: sent & !self.state.shift.full & !self.state.flow.waits,
            error: self.rx.any_mark(),
        }
    }

    // The interrupt that a read shows: one of IIR alone shows any.
    #[tactic(auto, using(registers::specs::Laws::equal_is_same), unfolding(crate::specs::Channel::shown_at))]
    pub fn shown(self, register: Register) -> Interrupt
        requires { WellFormed self }
        ensures { result ≡ shown_at self register }
    {
        if register == Register::IirFcr {
            return self.pending();
        }
        Interrupt::Nothing
    }

    // What a read of a register gives.
    #[tactic(auto, using(crate::specs::Laws::mark_shown_in), unfolding(crate::specs::Channel::read_of))]
    pub fn gives(self, register: Register, shown: Interrupt) -> u8
        requires { WellFormed self }
        ensures { result ≡ read_of self register shown }
    {
        match register {
            Register::RhrThr => self.rx.oldest().byte,
            Register::Ier => self.settings.ier,
            Register::IirFcr => shown.iir(self.settings),
            Register::Lcr => self.settings.lcr,
            Register::Mcr => self.settings.mcr,
            Register::Lsr => self.status().lsr(),
            Register::Msr => self.state.modem.msr(),
            Register::Spr => self.settings.spr,
            Register::Txlvl => spaces(self.tx.count).0,
            Register::Rxlvl => self.rx.count,
            Register::IoControl => 0x06,
            Register::Efcr => self.settings.efcr,
            Register::Tcr => self.settings.tcr,
            Register::Tlr => self.settings.tlr,
            Register::Dll => self.settings.dll,
            Register::Dlh => self.settings.dlh,
            Register::Efr => self.settings.efr,
            Register::Xon1 => self.settings.xon1,
            Register::Xon2 => self.settings.xon2,
            Register::Xoff1 => self.settings.xoff1,
            Register::Xoff2 => self.settings.xoff2,
            Register::Closed => 0,
        }
    }
}
