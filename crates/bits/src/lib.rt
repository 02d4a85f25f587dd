// Bytes by their bits, numbered as the data sheet's register tables number them: 0 is the lowest.
// A place or a width past the byte is no fault: there is nothing there.
#![tactic(auto)]

ghost use Rattle.std.specs.Prelude.{◌≡◌, ◌-◌, ◌^◌, ◌<◌};
ghost use Rattle.bits.specs.Choice.{pick};
ghost use Rattle.bits.specs.Bits.{bit_at, part_at, joined_at, replaced_at, cut_to};

// The first of two bytes where a condition holds, else the second.
pub fn chosen(condition: bool, x: u8, y: u8) -> u8
    ensures { result ≡ pick condition x y }
{
    if condition { x } else { y }
}

// As many ones as a width, from bit 0 on.
fn ones(width: u8) -> u8
    requires { width < 8 }
    ensures { result ≡ 2 ^ width - 1 }
{
    (1 << width) - 1
}

// The part of a byte that begins at a place and is so many bits wide, moved down to bit 0.
#[tactic(auto, using(crate::specs::Laws::masked_part, crate::specs::Laws::wide_part, crate::specs::Laws::no_part_past))]
pub fn part(byte: u8, place: u8, width: u8) -> u8
    ensures { result ≡ part_at byte place width }
{
    if 8 <= place {
        return 0;
    }
    if 8 <= width {
        return byte >> place;
    }
    (byte >> place) & ones(width)
}

// Whether the bit at a place is set.
#[tactic(auto, unfolding(crate::specs::Bits::bit_at))]
pub fn bit(byte: u8, place: u8) -> bool
    ensures { result ≡ bit_at byte place }
{
    part(byte, place, 1) == 1
}

// A byte put together: the bits of one below a place, and another from that place on.
#[tactic(auto, using(crate::specs::Laws::or_joined, crate::specs::Laws::joined_past))]
pub fn joined(low: u8, place: u8, high: u8) -> u8
    ensures { result ≡ joined_at low place high }
{
    if 8 <= place {
        return low;
    }
    (low & ones(place)) | (high << place)
}

// A byte that keeps its bits but for a part, which it takes from another.
#[tactic(auto, using(crate::specs::Laws::replaced_joined, crate::specs::Laws::replaced_to_the_end))]
pub fn replaced(old: u8, new: u8, place: u8, width: u8) -> u8
    ensures { result ≡ replaced_at old new place width }
{
    let taken = joined(old, place, part(new, place, width));
    if 8 <= place || 8 <= width {
        return taken;
    }
    let above = place + width;
    joined(taken, above, part(old, above, 8))
}

// As many ones as a word is long: 5, 6, 7 and 8.
const WORD_MASKS: [u8; 4] = [0x1f, 0x3f, 0x7f, 0xff];

// A character cut to the word length, 5 + LCR 1:0 bits.
#[tactic(auto, using(crate::specs::Laws::part_in))]
pub fn cut(character: u8, lcr: u8) -> u8
    ensures { result ≡ cut_to character lcr }
{
    character & WORD_MASKS[usize::from(part(lcr, 0, 2))]
}
