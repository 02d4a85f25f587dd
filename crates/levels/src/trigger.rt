// Trigger levels. Characters and spaces are sorts of their own, so that one is never compared with the other.
ghost use Rattle.std.specs.Prelude.{◌≡◌, eqb, get_or};
ghost use Rattle.bits.specs.Choice.{pick};
ghost use Rattle.bits.specs.Bits.{part_at};
ghost use Rattle.levels.specs.Levels.{fours, receive_level, transmit_level, halt_level, resume_level};

use bits::part;
use registers::Settings;

// A number of queued characters.
#[derive(Clone, Copy, PartialEq, Eq, PartialOrd, Ord)]
pub struct Characters(pub u8);

// A number of free spaces. Document 01 names the two structs, so they are no one type with a parameter.
#[derive(Clone, Copy, PartialEq, Eq, PartialOrd, Ord)]
pub struct Spaces(pub u8);

const RECEIVE: [u8; 4] = [8, 16, 56, 60];

const TRANSMIT: [u8; 4] = [8, 16, 32, 56];

const HALT: [u8; 4] = [8, 16, 56, 60];

const RESUME: [u8; 4] = [0, 8, 16, 56];

// Four times the four bits of a register from a place on.
#[tactic(auto, using(bits::specs::Laws::part_in), unfolding(crate::specs::Levels::fours))]
fn four_times(register: u8, place: u8) -> u8
    ensures { result ≡ fours register place }
{
    4 * part(register, place, 4)
}

// The level that two bits of FCR from a place on pick from a table.
#[tactic(auto, using(bits::specs::Laws::part_in))]
fn picked(table: &[u8; 4], fcr: u8, place: u8) -> u8
    ensures { result ≡ get_or table.now (part_at fcr place 2) 0 }
{
    table[usize::from(part(fcr, place, 2))]
}

// A level by FCR unless four bits of TLR give one.
fn trigger_level(settings: Settings, own: u8, table: &[u8; 4], place: u8) -> u8
    ensures { result ≡ pick (eqb (fours settings.tlr own) 0)
        (get_or table.now (part_at settings.fcr place 2) 0) (fours settings.tlr own) }
{
    match four_times(settings.tlr, own) {
        0 => picked(table, settings.fcr, place),
        level => level,
    }
}

// The level by FCR 7:6 unless TLR 7:4 gives one.
#[tactic(auto, unfolding(crate::specs::Levels::receive_level))]
pub fn receive_level(settings: Settings) -> Characters
    ensures { result ≡ receive_level settings }
{
    Characters(trigger_level(settings, 4, &RECEIVE, 6))
}

// The level by FCR 5:4 unless TLR 3:0 gives one.
#[tactic(auto, unfolding(crate::specs::Levels::transmit_level))]
pub fn transmit_level(settings: Settings) -> Spaces
    ensures { result ≡ transmit_level settings }
{
    Spaces(trigger_level(settings, 0, &TRANSMIT, 4))
}

// A level by four bits of TCR, or by FCR where all of TCR is 0.
fn flow_level(settings: Settings, own: u8, table: &[u8; 4]) -> Characters
    ensures { result.0 ≡ pick (eqb settings.tcr 0)
        (get_or table.now (part_at settings.fcr 6 2) 0) (fours settings.tcr own) }
{
    Characters(match settings.tcr {
        0 => picked(table, settings.fcr, 6),
        tcr => four_times(tcr, own),
    })
}

#[tactic(auto, unfolding(crate::specs::Levels::halt_level))]
pub fn halt_level(settings: Settings) -> Characters
    ensures { result ≡ halt_level settings }
{
    flow_level(settings, 0, &HALT)
}

#[tactic(auto, unfolding(crate::specs::Levels::resume_level))]
pub fn resume_level(settings: Settings) -> Characters
    ensures { result ≡ resume_level settings }
{
    flow_level(settings, 4, &RESUME)
}
