// The transmit side beside its queue: its spaces, the shift register and the slot.
ghost use Rattle.std.specs.Prelude.{◌≡◌, ◌≤◌};
ghost use Rattle.lines.specs.Transmit.{transmit_room, spaces_of, all_free, is_busy, shift_after, slot_reply, thr_condition};

use bits::{bit, cut};
use levels::{Spaces, transmit_level};
use registers::Settings;

// How many characters the transmit queue has room for.
pub const TRANSMIT_ROOM: u8 = 64;

// A character that is being sent. C sees the record's layout, so the flag and the byte stand side by side and are no Option.
#[repr(C)]
#[derive(Clone, Copy)]
pub struct Shift {
    pub full: bool,
    pub byte: u8,
}

// The free spaces beside so many queued characters.
#[tactic(auto, unfolding(crate::specs::Transmit::spaces_of))]
pub fn spaces(count: u8) -> Spaces
    requires { count ≤ transmit_room }
    ensures { result ≡ spaces_of count }
{
    Spaces(TRANSMIT_ROOM - count)
}

// Whether the transmit queue is empty.
#[tactic(auto, unfolding(crate::specs::Transmit::all_free))]
pub fn all_free(free: Spaces) -> bool
    ensures { result ≡ all_free free }
{
    free.0 == TRANSMIT_ROOM
}

// Whether the interrupt condition of the transmit queue holds.
#[tactic(auto, unfolding(crate::specs::Transmit::thr_condition))]
pub fn thr_condition(settings: Settings, free: Spaces) -> bool
    ensures { result ≡ thr_condition settings free }
{
    if bit(settings.fcr, 0) {
        return transmit_level(settings) <= free;
    }
    all_free(free)
}

impl Shift {
    // Full with the character that a slot loads, or empty.
    #[tactic(auto, unfolding(crate::specs::Transmit::shift_loaded))]
    pub fn loaded(character: Option<u8>) -> Shift
        ensures { result ≡ shift_after character }
    {
        Shift {
            full: character.is_some(),
            byte: character.unwrap_or(0),
        }
    }

    // Whether the queue or the shift register holds something.
    #[tactic(auto, unfolding(crate::specs::Transmit::is_busy))]
    pub fn busy(self, free: Spaces) -> bool
        ensures { result ≡ is_busy self free }
    {
        !all_free(free) | self.full
    }

    // The reply to a slot in document 01's form, which `slot_reply` states: the character that leaves, or 256.
    #[tactic(auto, unfolding(crate::specs::Transmit::slot_reply))]
    pub fn leaving(self, settings: Settings) -> u16
        ensures { result ≡ slot_reply self settings }
    {
        if self.full {
            return u16::from(cut(self.byte, settings.lcr));
        }
        256
    }
}
