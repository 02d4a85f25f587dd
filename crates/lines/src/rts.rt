// The RTS line and the auto-RTS latch. Settings and a count of characters stay two parameters: the one is stored, the other is counted
// anew by each event.
ghost use Rattle.std.specs.Prelude.{◌≡◌};
ghost use Rattle.lines.specs.Rts.{halt_reached, resume_reached, latch_driven, latch_after, rts_of};

use bits::bit;
use levels::{Characters, halt_level, resume_level};
use registers::Settings;

#[tactic(auto, unfolding(crate::specs::Rts::halt_reached))]
fn halts(settings: Settings, received: Characters) -> bool
    ensures { result ≡ halt_reached settings received }
{
    halt_level(settings) <= received
}

#[tactic(auto, unfolding(crate::specs::Rts::resume_reached))]
fn resumes(settings: Settings, received: Characters) -> bool
    ensures { result ≡ resume_reached settings received }
{
    received <= resume_level(settings)
}

// A latch by the halt and resume rule, where so many characters are in the receive queue.
#[tactic(auto, unfolding(crate::specs::Rts::latch_driven))]
pub fn latch_driven(settings: Settings, received: Characters, latch: bool) -> bool
    ensures { result ≡ latch_driven settings received latch }
{
    if halts(settings, received) {
        return false;
    }
    if resumes(settings, received) {
        return true;
    }
    latch
}

// The auto-RTS latch after an event that leaves so many characters in the receive queue.
#[tactic(auto, unfolding(crate::specs::Rts::latch_after))]
pub fn latch_after(settings: Settings, received: Characters, latch: bool) -> bool
    ensures { result ≡ latch_after settings received latch }
{
    if !bit(settings.efr, 6) {
        return true;
    }
    latch_driven(settings, received, latch)
}

// Whether RTS is asserted, where something is sent or nothing is.
#[tactic(auto, using(bits::specs::Conditions::ne_differs), unfolding(crate::specs::Rts::rts_of))]
pub fn rts_asserted(settings: Settings, latch: bool, busy: bool) -> bool
    ensures { result ≡ rts_of settings latch busy }
{
    if bit(settings.efcr, 4) {
        return busy != bit(settings.efcr, 5);
    }
    if bit(settings.efr, 6) {
        return latch;
    }
    bit(settings.mcr, 1)
}
