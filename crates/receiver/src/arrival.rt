// What the stored registers make of an arriving character, before any queue is looked at.
ghost use Rattle.std.specs.Prelude.{◌≡◌};
ghost use Rattle.receiver.specs.Arrivals.{mode_of, arrived_byte, equals_xoff2, unless_off, does_pass, as_data, receiver_set, special_match, taken_as, compared_as, gate_plain, heard_plain, heard_ninth, heard_address, heard_of};

use bits::{bit, chosen, cut, replaced};
use registers::{Pair, Register, Setting, Settings, chooses_pair};

// A byte that arrives, and its mark.
#[derive(Clone, Copy)]
pub struct Arrival {
    pub byte: u8,
    pub mark: u8,
}

// An arrival passes, or is dropped by a disabled receiver, or by address, or is taken as Xoff or Xon.
#[derive(Clone, Copy, PartialEq, Eq)]
pub enum Gate {
    Passes,
    Off,
    Elsewhere,
    Xoff,
    Xon,
}

// How the receiver takes the ninth bit: not at all, as a mark, or as that of an address.
#[derive(Clone, Copy)]
enum Mode {
    Plain,
    Ninth,
    Address,
}

// What becomes of an arrival, whether it sets the special flag, and the register that it sets, if it sets one.
#[derive(Clone, Copy)]
pub struct Heard {
    pub gate: Gate,
    pub special: bool,
    pub setting: Option<Setting>,
}

impl Gate {
    #[tactic(auto, unfolding(crate::specs::Arrivals::does_pass))]
    pub fn passes(self) -> bool
        ensures { result ≡ does_pass self }
    {
        matches!(self, Gate::Passes)
    }
}

#[tactic(auto, unfolding(crate::specs::Arrivals::mode_of))]
fn mode_of(settings: Settings) -> Mode
    ensures { result ≡ mode_of settings }
{
    if !bit(settings.efcr, 0) {
        return Mode::Plain;
    }
    if !bit(settings.efr, 5) {
        return Mode::Ninth;
    }
    Mode::Address
}

#[tactic(auto, unfolding(crate::specs::Arrivals::unless_off))]
fn unless_off(settings: Settings) -> Gate
    ensures { result ≡ unless_off settings }
{
    if bit(settings.efcr, 1) {
        return Gate::Off;
    }
    Gate::Passes
}

// EFCR with its bit 1 made anew.
#[tactic(auto, unfolding(crate::specs::Arrivals::receiver_set))]
fn receiver_set(settings: Settings, off: u8) -> Setting
    ensures { result ≡ receiver_set settings off }
{
    Setting {
        register: Register::Efcr,
        byte: replaced(settings.efcr, off, 1, 1),
    }
}

// What a character is taken for by the pair that it is compared with.
#[tactic(auto, unfolding(crate::specs::Arrivals::taken_as))]
fn taken_as(pair: Pair, character: u8) -> Gate
    ensures { result ≡ taken_as pair character }
{
    if character == pair.xoff {
        return Gate::Xoff;
    }
    if character == pair.xon {
        return Gate::Xon;
    }
    Gate::Passes
}

// A ninth bit of 0 in the modes that look at it.
#[tactic(auto, unfolding(crate::specs::Arrivals::as_data))]
fn as_data(settings: Settings) -> Heard
    ensures { result ≡ as_data settings }
{
    Heard {
        gate: unless_off(settings),
        special: false,
        setting: None,
    }
}

impl Arrival {
    // A break's byte counts as 0; the byte is cut to the word length.
    #[tactic(auto, unfolding(crate::specs::Arrivals::arrived_byte))]
    pub fn arrived_byte(self, settings: Settings) -> u8
        ensures { result ≡ arrived_byte settings self.byte self.mark }
    {
        cut(chosen(bit(self.mark, 2), 0, self.byte), settings.lcr)
    }

    #[tactic(auto, unfolding(crate::specs::Arrivals::equals_xoff2))]
    fn equals_xoff2(self, settings: Settings) -> bool
        ensures { result ≡ equals_xoff2 settings self.byte self.mark }
    {
        self.arrived_byte(settings) == settings.xoff2
    }

    #[tactic(auto, unfolding(crate::specs::Arrivals::special_match))]
    fn special_match(self, settings: Settings) -> bool
        ensures { result ≡ special_match settings self.byte self.mark }
    {
        bit(settings.efr, 5) & self.equals_xoff2(settings)
    }

    // A passing character where a pair is compared: one without a mark that is no special match.
    #[tactic(auto, unfolding(crate::specs::Arrivals::compared_as))]
    fn compared_as(self, settings: Settings) -> Gate
        ensures { result ≡ compared_as settings self.byte self.mark }
    {
        if (self.mark == 0) & !self.special_match(settings) {
            return taken_as(settings.pair(0), self.arrived_byte(settings));
        }
        Gate::Passes
    }

    #[tactic(auto, unfolding(crate::specs::Arrivals::gate_plain))]
    fn gate_plain(self, settings: Settings) -> Gate
        ensures { result ≡ gate_plain settings self.byte self.mark }
    {
        if bit(settings.efcr, 1) {
            return Gate::Off;
        }
        if chooses_pair(settings.efr, 0) {
            return self.compared_as(settings);
        }
        Gate::Passes
    }

    #[tactic(auto, unfolding(crate::specs::Arrivals::heard_plain))]
    fn heard_plain(self, settings: Settings) -> Heard
        ensures { result ≡ heard_plain settings self.byte self.mark }
    {
        Heard {
            gate: self.gate_plain(settings),
            special: !bit(settings.efcr, 1) & self.special_match(settings),
            setting: None,
        }
    }

    #[tactic(auto, unfolding(crate::specs::Arrivals::heard_ninth))]
    fn heard_ninth(self, settings: Settings) -> Heard
        ensures { result ≡ heard_ninth settings self.mark }
    {
        if !bit(self.mark, 0) {
            return as_data(settings);
        }
        Heard {
            gate: Gate::Passes,
            special: false,
            setting: None,
        }
    }

    #[tactic(auto, unfolding(crate::specs::Arrivals::heard_address))]
    fn heard_address(self, settings: Settings) -> Heard
        ensures { result ≡ heard_address settings self.byte self.mark }
    {
        if !bit(self.mark, 0) {
            return as_data(settings);
        }
        if self.equals_xoff2(settings) {
            return Heard {
                gate: Gate::Passes,
                special: false,
                setting: Some(receiver_set(settings, 0)),
            };
        }
        Heard {
            gate: Gate::Elsewhere,
            special: false,
            setting: Some(receiver_set(settings, 2)),
        }
    }

    // By the three modes that document 01 names; closures for them would be no plainer than this match.
    #[tactic(auto, unfolding(crate::specs::Arrivals::heard_of))]
    pub fn heard_by(self, settings: Settings) -> Heard
        ensures { result ≡ heard_of settings self.byte self.mark }
    {
        match mode_of(settings) {
            Mode::Plain => self.heard_plain(settings),
            Mode::Ninth => self.heard_ninth(settings),
            Mode::Address => self.heard_address(settings),
        }
    }
}
