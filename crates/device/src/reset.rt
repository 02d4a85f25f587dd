// A device made new and one that is reset.
ghost use Rattle.std.specs.Prelude.{◌≡◌};
ghost use Rattle.device.specs.Reset.{settings_reset, lines_reset, reset_of, blank_settings, blank_channel, reset_device, new_device};

use crate::device::Device;
use channel::{Channel, State};
use flow::Flow;
use interrupts::Flags;
use lines::{Modem, Shift};
use queue::Queue;
use receiver::Line;
use registers::Settings;

impl Device {
    pub const RESET_LCR: u8 = 0x1D;

    // IER, FCR, MCR, EFR, TCR, TLR and EFCR.
    pub const RESET_REGISTER: u8 = 0;

    // MSR 3:0, the quiet count, what an empty shift register holds, and the byte where none waits.
    pub const RESET_COUNT: u8 = 0;

    // Overrun, a full shift register, the special, CTS and RTS flags, a stop by Xoff, and a byte that waits.
    pub const RESET_FLAG: bool = false;

    pub const RESET_THR_FLAG: bool = true;

    // Both latches.
    pub const RESET_LATCH: bool = true;

    // DLL, DLH, SPR, XON and XOFF and the pins, which a reset keeps, of a new device.
    pub const NEW_BYTE: u8 = 0;

    // A new device: a reset one, every byte that a reset keeps and the pins 0.
    #[tactic(auto, unfolding(crate::specs::Reset::new_device))]
    pub fn new() -> Device
        ensures { result ≡ new_device }
    {
        let blank = Device {
            a: blank_channel(),
            b: blank_channel(),
        };
        blank.reset()
    }

    // Both channels reset.
    #[tactic(auto, unfolding(crate::specs::Reset::reset_device))]
    pub fn reset(self) -> Device
        ensures { result ≡ reset_device self }
    {
        Device {
            a: reset_channel(self.a),
            b: reset_channel(self.b),
        }
    }
}

// SPR, DLL, DLH, XON and XOFF are kept.
#[tactic(auto, unfolding(crate::specs::Reset::settings_reset))]
fn reset_settings(settings: Settings) -> Settings
    ensures { result ≡ settings_reset settings }
{
    Settings {
        lcr: Device::RESET_LCR,
        ier: Device::RESET_REGISTER,
        fcr: Device::RESET_REGISTER,
        mcr: Device::RESET_REGISTER,
        efr: Device::RESET_REGISTER,
        efcr: Device::RESET_REGISTER,
        tcr: Device::RESET_REGISTER,
        tlr: Device::RESET_REGISTER,
        ..settings
    }
}

// The lines after a reset, beside pins that stay.
#[tactic(auto, unfolding(crate::specs::Reset::lines_reset))]
fn reset_lines(pins: u8) -> State
    ensures { result ≡ lines_reset pins }
{
    State {
        line: Line {
            overrun: Device::RESET_FLAG,
            quiet: Device::RESET_COUNT,
        },
        shift: Shift {
            full: Device::RESET_FLAG,
            byte: Device::RESET_COUNT,
        },
        modem: Modem {
            pins,
            changes: Device::RESET_COUNT,
        },
        flags: Flags {
            special: Device::RESET_FLAG,
            cts: Device::RESET_FLAG,
            rts: Device::RESET_FLAG,
            thr: Device::RESET_THR_FLAG,
        },
        latch: Device::RESET_LATCH,
        flow: Flow {
            stopped: Device::RESET_FLAG,
            latch: Device::RESET_LATCH,
            waits: Device::RESET_FLAG,
            byte: Device::RESET_COUNT,
        },
    }
}

#[tactic(auto, unfolding(crate::specs::Reset::reset_of, queue::specs::Queue::clears_all))]
fn reset_channel(channel: Channel) -> Channel
    ensures { result ≡ reset_of channel }
{
    Channel {
        settings: reset_settings(channel.settings),
        state: reset_lines(channel.state.modem.pins),
        rx: channel.rx.after(channel.rx.clears(true)),
        tx: channel.tx.after(channel.tx.clears(true)),
    }
}

#[tactic(auto, unfolding(crate::specs::Reset::blank_settings))]
fn blank_settings() -> Settings
    ensures { result ≡ blank_settings }
{
    Settings {
        lcr: Device::NEW_BYTE,
        ier: Device::NEW_BYTE,
        fcr: Device::NEW_BYTE,
        mcr: Device::NEW_BYTE,
        spr: Device::NEW_BYTE,
        efr: Device::NEW_BYTE,
        efcr: Device::NEW_BYTE,
        tcr: Device::NEW_BYTE,
        tlr: Device::NEW_BYTE,
        dll: Device::NEW_BYTE,
        dlh: Device::NEW_BYTE,
        xon1: Device::NEW_BYTE,
        xon2: Device::NEW_BYTE,
        xoff1: Device::NEW_BYTE,
        xoff2: Device::NEW_BYTE,
    }
}

// A channel of zeros that a reset makes a new one of.
#[tactic(auto, unfolding(crate::specs::Reset::blank_channel))]
fn blank_channel() -> Channel
    ensures { result ≡ blank_channel }
{
    Channel {
        settings: blank_settings(),
        state: reset_lines(Device::NEW_BYTE),
        rx: Queue::empty(),
        tx: Queue::empty(),
    }
}
