// The stored registers, the window that they open, and what a write makes of them.
ghost use Rattle.std.specs.Prelude.{◌≡◌};
ghost use Rattle.registers.specs.Windows.{enhanced_at, divisor_at, general_at, register_at, tcr_open};
ghost use Rattle.registers.specs.Writes.{guard_open, ier_written, fcr_written, mcr_written, efcr_written, divisor_written, taken_by, setting_of, if_set, with_setting, resets_device};

use crate::register::Register;
use bits::{bit, chosen, replaced};

#[repr(C)]
#[derive(Clone, Copy)]
pub struct Settings {
    pub lcr: u8,
    pub ier: u8,
    pub fcr: u8,
    pub mcr: u8,
    pub spr: u8,
    pub efr: u8,
    pub efcr: u8,
    pub tcr: u8,
    pub tlr: u8,
    pub dll: u8,
    pub dlh: u8,
    pub xon1: u8,
    pub xon2: u8,
    pub xoff1: u8,
    pub xoff2: u8,
}

// A register and the byte that it is to hold; no event sets more than one.
#[derive(Clone, Copy)]
pub struct Setting {
    pub register: Register,
    pub byte: u8,
}

// A byte that is written to a register: what is offered, where a `Setting` is what is then stored.
#[derive(Clone, Copy)]
pub struct Write {
    pub register: Register,
    pub byte: u8,
}

// The set that LCR = BF opens.
#[tactic(auto, unfolding(crate::specs::Windows::enhanced_at))]
fn enhanced_at(address: u8) -> Register
    ensures { result ≡ enhanced_at address }
{
    match address {
        2 => Register::Efr,
        4 => Register::Xon1,
        5 => Register::Xon2,
        6 => Register::Xoff1,
        7 => Register::Xoff2,
        _ => Register::Closed,
    }
}

// The set that any other LCR with bit 7 opens.
#[tactic(auto, unfolding(crate::specs::Windows::divisor_at))]
fn divisor_at(address: u8) -> Register
    ensures { result ≡ divisor_at address }
{
    match address {
        0 => Register::Dll,
        1 => Register::Dlh,
        _ => Register::Closed,
    }
}

// The general set; `tcr` is whether 6 and 7 are TCR and TLR.
#[tactic(auto, unfolding(crate::specs::Windows::general_at))]
fn general_at(address: u8, tcr: bool) -> Register
    ensures { result ≡ general_at address tcr }
{
    match address {
        0 => Register::RhrThr,
        1 => Register::Ier,
        2 => Register::IirFcr,
        4 => Register::Mcr,
        5 => Register::Lsr,
        6 if tcr => Register::Tcr,
        6 => Register::Msr,
        7 if tcr => Register::Tlr,
        7 => Register::Spr,
        8 => Register::Txlvl,
        9 => Register::Rxlvl,
        14 => Register::IoControl,
        15 => Register::Efcr,
        _ => Register::Closed,
    }
}

impl Setting {
    // What a stored register holds, if it is the one set or not.
    #[tactic(auto, using(crate::specs::Laws::equal_is_same), unfolding(crate::specs::Writes::if_set))]
    pub fn held(self, stored: Register, old: u8) -> u8
        ensures { result ≡ if_set self stored old }
    {
        chosen(self.register == stored, self.byte, old)
    }
}

#[tactic(auto, unfolding(crate::specs::Writes::efcr_written))]
fn efcr_written(byte: u8) -> u8
    ensures { result ≡ efcr_written byte }
{
    replaced(replaced(byte, 0, 6, 2), 0, 3, 1)
}

impl Settings {
    #[tactic(auto, unfolding(crate::specs::Windows::tcr_open))]
    fn tcr_open(self) -> bool
        ensures { result ≡ tcr_open self }
    {
        bit(self.efr, 4) & bit(self.mcr, 2)
    }

    // The register that an address names.
    #[tactic(auto, unfolding(crate::specs::Windows::register_at))]
    pub fn register(self, address: u8) -> Register
        ensures { result ≡ register_at self address }
    {
        if address == 3 {
            return Register::Lcr;
        }
        if !bit(self.lcr, 7) {
            return general_at(address, self.tcr_open());
        }
        if self.lcr == 0xBF {
            return enhanced_at(address);
        }
        divisor_at(address)
    }

    #[tactic(auto, unfolding(crate::specs::Writes::guard_open))]
    fn guard_open(self) -> bool
        ensures { result ≡ guard_open self }
    {
        bit(self.efr, 4)
    }

    #[tactic(auto, unfolding(crate::specs::Writes::ier_written))]
    fn ier_written(self, byte: u8) -> u8
        ensures { result ≡ ier_written self byte }
    {
        chosen(self.guard_open(), byte, replaced(byte, self.ier, 4, 4))
    }

    #[tactic(auto, unfolding(crate::specs::Writes::fcr_written))]
    fn fcr_written(self, byte: u8) -> u8
        ensures { result ≡ fcr_written self byte }
    {
        let stored = replaced(byte, 0, 1, 3);
        chosen(self.guard_open(), stored, replaced(stored, self.fcr, 4, 2))
    }

    #[tactic(auto, unfolding(crate::specs::Writes::mcr_written))]
    fn mcr_written(self, byte: u8) -> u8
        ensures { result ≡ mcr_written self byte }
    {
        let stored = replaced(byte, 0, 3, 1);
        let guarded = replaced(replaced(stored, self.mcr, 5, 3), self.mcr, 2, 1);
        chosen(self.guard_open(), stored, guarded)
    }

    #[tactic(auto, unfolding(crate::specs::Writes::divisor_written))]
    fn divisor_written(self, old: u8, byte: u8) -> u8
        ensures { result ≡ divisor_written self old byte }
    {
        chosen(bit(self.ier, 4), old, byte)
    }

    // What a register takes of a byte that is written to it.
    #[tactic(auto, unfolding(crate::specs::Writes::taken_by))]
    fn taken(self, write: Write) -> u8
        ensures { result ≡ taken_by self write.register write.byte }
    {
        let byte = write.byte;
        match write.register {
            Register::Ier => self.ier_written(byte),
            Register::IirFcr => self.fcr_written(byte),
            Register::Mcr => self.mcr_written(byte),
            Register::Efcr => efcr_written(byte),
            Register::Dll => self.divisor_written(self.dll, byte),
            Register::Dlh => self.divisor_written(self.dlh, byte),
            _ => byte,
        }
    }

    // What a write sets. A byte for THR goes to the queue, and a closed register takes none.
    #[tactic(auto, unfolding(crate::specs::Writes::setting_of))]
    pub fn written(self, write: Write) -> Option<Setting>
        ensures { result ≡ setting_of self write.register write.byte }
    {
        match write.register {
            Register::RhrThr | Register::Closed => None,
            register => Some(Setting {
                register,
                byte: self.taken(write),
            }),
        }
    }

    // With a register set.
    #[tactic(auto, unfolding(crate::specs::Writes::with_setting))]
    pub fn with(self, setting: Setting) -> Settings
        ensures { result ≡ with_setting self setting }
    {
        Settings {
            lcr: setting.held(Register::Lcr, self.lcr),
            ier: setting.held(Register::Ier, self.ier),
            fcr: setting.held(Register::IirFcr, self.fcr),
            mcr: setting.held(Register::Mcr, self.mcr),
            spr: setting.held(Register::Spr, self.spr),
            efr: setting.held(Register::Efr, self.efr),
            efcr: setting.held(Register::Efcr, self.efcr),
            tcr: setting.held(Register::Tcr, self.tcr),
            tlr: setting.held(Register::Tlr, self.tlr),
            dll: setting.held(Register::Dll, self.dll),
            dlh: setting.held(Register::Dlh, self.dlh),
            xon1: setting.held(Register::Xon1, self.xon1),
            xon2: setting.held(Register::Xon2, self.xon2),
            xoff1: setting.held(Register::Xoff1, self.xoff1),
            xoff2: setting.held(Register::Xoff2, self.xoff2),
        }
    }
}

impl Write {
    // Whether it resets the device.
    #[tactic(auto, using(crate::specs::Laws::equal_is_same), unfolding(crate::specs::Writes::resets_device))]
    pub fn resets_device(self) -> bool
        ensures { result ≡ resets_device self.register self.byte }
    {
        (self.register == Register::IoControl) & bit(self.byte, 3)
    }
}
