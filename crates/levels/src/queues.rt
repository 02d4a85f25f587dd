// What the stored registers say of the queues.
ghost use Rattle.std.specs.Prelude.{◌≡◌};
ghost use Rattle.levels.specs.Queues.{room_of, fifo_changes, clears, transmits, loads};

use bits::{bit, chosen};
use registers::{Register, Settings, Write};

// How many characters the receive queue has room for.
#[tactic(auto, unfolding(crate::specs::Queues::room_of))]
pub fn room(settings: Settings) -> u8
    ensures { result ≡ room_of settings }
{
    chosen(bit(settings.fcr, 0), 64, 1)
}

// Whether an FCR write turns the FIFOs on or off. With `differs` unfolded the same in other words is proved too, so that an edit of it
// is refused for what it says.
#[tactic(auto, using(bits::specs::Conditions::ne_differs), unfolding(crate::specs::Queues::fifo_changes, bits::specs::Bits::differs))]
fn fifo_changes(settings: Settings, byte: u8) -> bool
    ensures { result ≡ fifo_changes settings byte }
{
    bit(settings.fcr, 0) != bit(byte, 0)
}

// Whether a write clears the queue that FCR's bit at a place clears.
#[tactic(auto, using(registers::specs::Laws::equal_is_same), unfolding(crate::specs::Queues::clears))]
pub fn clears(settings: Settings, write: Write, place: u8) -> bool
    ensures { result ≡ clears settings write.register write.byte place }
{
    (write.register == Register::IirFcr)
        & (bit(write.byte, place) | fifo_changes(settings, write.byte))
}

// Whether the transmitter is on.
#[tactic(auto, unfolding(crate::specs::Queues::transmits))]
pub fn transmits(settings: Settings) -> bool
    ensures { result ≡ transmits settings }
{
    !bit(settings.efcr, 2)
}

// Whether a slot loads the oldest character, with CTS asserted or not.
#[tactic(auto, unfolding(crate::specs::Queues::loads))]
pub fn loads(settings: Settings, cts: bool) -> bool
    ensures { result ≡ loads settings cts }
{
    transmits(settings) & (!bit(settings.efr, 7) | cts)
}
