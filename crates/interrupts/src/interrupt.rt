// The interrupts in rank order, and IIR.
ghost use Rattle.std.specs.Prelude.{◌≡◌};
ghost use Rattle.interrupts.specs.Interrupts.{code_of, is_pending, trigger_level, modem_changed, line_status_pending, timeout_pending, receive_pending, transmit_pending, modem_pending, special_pending, flow_pending, pending_of, iir_of};

use crate::flags::Flags;
use bits::{bit, chosen, joined, part};
use flow::Flow;
use levels::{Characters, receive_level};
use lines::Modem;
use receiver::Line;
use registers::Settings;

// With the table's codes. `Nothing` is a row of the table too, which IIR shows as 01 (`code_of`), and so it is no Option's None.
#[derive(Clone, Copy, PartialEq, Eq)]
pub enum Interrupt {
    LineStatus = 0x06,
    Timeout = 0x0C,
    Receive = 0x04,
    Transmit = 0x02,
    Modem = 0x00,
    Special = 0x10,
    Flow = 0x20,
    Nothing = 0x01,
}

impl Interrupt {
    #[tactic(auto, unfolding(crate::specs::Interrupts::code_of))]
    pub fn code(self) -> u8
        ensures { result ≡ code_of self }
    {
        self as u8
    }

    #[tactic(auto, unfolding(crate::specs::Interrupts::is_pending, crate::specs::Interrupts::code_of))]
    pub fn pending(self) -> bool
        ensures { result ≡ is_pending self }
    {
        self != Interrupt::Nothing
    }

    // IIR with the FIFOs on or off.
    #[tactic(auto, using(crate::proofs::Sums::iir_sum))]
    pub fn iir(self, settings: Settings) -> u8
        ensures { result ≡ iir_of self settings }
    {
        joined(self.code(), 6, chosen(bit(settings.fcr, 0), 3, 0))
    }
}

#[tactic(auto, unfolding(crate::specs::Interrupts::trigger_level))]
fn trigger_level(settings: Settings) -> Characters
    ensures { result ≡ trigger_level settings }
{
    if bit(settings.fcr, 0) {
        return receive_level(settings);
    }
    Characters(1)
}

#[tactic(auto, unfolding(crate::specs::Interrupts::modem_changed))]
fn modem_changed(settings: Settings, modem: Modem) -> bool
    ensures { result ≡ modem_changed settings modem }
{
    if bit(settings.efr, 7) {
        return part(modem.changes, 1, 3) != 0;
    }
    modem.changes != 0
}

#[tactic(auto, unfolding(crate::specs::Interrupts::line_status_pending))]
fn line_status(settings: Settings, line: Line, error: bool) -> bool
    ensures { result ≡ line_status_pending settings line error }
{
    bit(settings.ier, 2) & (line.overrun | error)
}

#[tactic(auto, unfolding(crate::specs::Interrupts::timeout_pending))]
fn timeout(settings: Settings, line: Line, received: Characters) -> bool
    ensures { result ≡ timeout_pending settings line received }
{
    bit(settings.ier, 0) & bit(settings.fcr, 0) & (received.0 != 0) & (line.quiet == 4)
}

#[tactic(auto, unfolding(crate::specs::Interrupts::receive_pending))]
fn receive(settings: Settings, received: Characters) -> bool
    ensures { result ≡ receive_pending settings received }
{
    bit(settings.ier, 0) & (trigger_level(settings) <= received)
}

#[tactic(auto, unfolding(crate::specs::Interrupts::transmit_pending))]
fn transmit(settings: Settings, flags: Flags) -> bool
    ensures { result ≡ transmit_pending settings flags }
{
    bit(settings.ier, 1) & flags.thr
}

#[tactic(auto, unfolding(crate::specs::Interrupts::modem_pending))]
fn modem_status(settings: Settings, modem: Modem) -> bool
    ensures { result ≡ modem_pending settings modem }
{
    bit(settings.ier, 3) & modem_changed(settings, modem)
}

#[tactic(auto, unfolding(crate::specs::Interrupts::special_pending))]
fn special(settings: Settings, flow: Flow, flags: Flags) -> bool
    ensures { result ≡ special_pending settings flow flags }
{
    bit(settings.ier, 5) & (flags.special | flow.stopped)
}

#[tactic(auto, unfolding(crate::specs::Interrupts::flow_pending))]
fn hardware_flow(settings: Settings, flags: Flags) -> bool
    ensures { result ≡ flow_pending settings flags }
{
    (bit(settings.ier, 7) & flags.cts) | (bit(settings.ier, 6) & flags.rts)
}

// The highest interrupt pending, where so many characters are received and `error` says whether one of them has a mark.
#[tactic(auto, unfolding(crate::specs::Interrupts::pending_of))]
pub fn pending(
    settings: Settings,
    line: Line,
    modem: Modem,
    flow: Flow,
    flags: Flags,
    received: Characters,
    error: bool,
) -> Interrupt
    ensures { result ≡ pending_of settings line modem flow flags received error }
{
    if line_status(settings, line, error) {
        return Interrupt::LineStatus;
    }
    if timeout(settings, line, received) {
        return Interrupt::Timeout;
    }
    if receive(settings, received) {
        return Interrupt::Receive;
    }
    if transmit(settings, flags) {
        return Interrupt::Transmit;
    }
    if modem_status(settings, modem) {
        return Interrupt::Modem;
    }
    if special(settings, flow, flags) {
        return Interrupt::Special;
    }
    if hardware_flow(settings, flags) {
        return Interrupt::Flow;
    }
    Interrupt::Nothing
}
