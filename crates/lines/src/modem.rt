// The modem pins and the changes that MSR shows.
ghost use Rattle.std.specs.Prelude.{◌≡◌, ◌<◌};
ghost use Rattle.lines.specs.Modem.{ModemIn, cts_asserted, cts_off, pins_changed, modem_read, msr_of};

use bits::{bit, chosen, joined};
use registers::{Register, Settings};

// CD, DSR and CTS, of which MSR marks a change either way.
const ANY_CHANGE: u8 = 0x0B;

// RI, of which it marks only that it goes off.
const RI: u8 = 0x04;

#[repr(C)]
#[derive(Clone, Copy)]
pub struct Modem {
    pub pins: u8,
    pub changes: u8,
}

impl Modem {
    #[tactic(auto, unfolding(crate::specs::Modem::cts_asserted))]
    pub fn cts(self) -> bool
        ensures { result ≡ cts_asserted self }
    {
        bit(self.pins, 0)
    }

    // Whether new pin values turn CTS off so that its flag sets.
    #[tactic(auto, unfolding(crate::specs::Modem::cts_off))]
    pub fn cts_off(self, settings: Settings, value: u8) -> bool
        ensures { result ≡ cts_off self settings value }
    {
        self.cts() & !bit(value, 0) & !bit(settings.efr, 7)
    }

    // With new pin values.
    #[tactic(auto, unfolding(crate::specs::Modem::pins_changed))]
    pub fn changed(self, value: u8) -> Modem
        requires { value < 16 }
        ensures { result ≡ pins_changed self value }
    {
        Modem {
            pins: value,
            changes: self.changes | ((self.pins ^ value) & (ANY_CHANGE | (self.pins & RI))),
        }
    }

    // After a register is read.
    #[tactic(auto, using(registers::specs::Laws::equal_is_same), unfolding(crate::specs::Modem::modem_read))]
    pub fn read(self, register: Register) -> Modem
        ensures { result ≡ modem_read self register }
    {
        Modem {
            changes: chosen(register == Register::Msr, 0, self.changes),
            ..self
        }
    }

    #[tactic(auto, using(bits::specs::Laws::joined_sum), unfolding(crate::specs::Modem::msr_of))]
    pub fn msr(self) -> u8
        requires { ModemIn self }
        ensures { result ≡ msr_of self }
    {
        joined(self.changes, 4, self.pins)
    }
}
