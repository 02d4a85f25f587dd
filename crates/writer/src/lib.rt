// An event's bytes, as an event file has them.
#![tactic(auto)]

ghost use Rattle.std.specs.Prelude.{◌≡◌};
ghost use Rattle.event.specs.Events.{InRange, event_of};
ghost use Rattle.writer.specs.Writing.{whole_of, written_of, Put};

use event::{Event, Kind, Touch, event_of, refused_answer};

// The least number that takes two groups.
const TWO_GROUPS: u8 = 128;

// The bytes with their count, places past the count 0, and 0 for the refusal; of a refused event no byte, and its number. This is
// document 01's form of what the writer gives, which the contract of `write` holds.
#[derive(Clone, Copy)]
pub struct Written {
    pub bytes: [u8; 5],
    pub count: u8,
    pub refusal: u8,
}

fn whole(bytes: [u8; 5], count: u8) -> Written
    ensures { result ≡ record { bytes = bytes; count = count; refusal = 0 } }
{
    Written {
        bytes,
        count,
        refusal: 0,
    }
}

// Of all operands only a byte can take two groups.
#[tactic(auto, using(crate::proofs::Table::table_right), unfolding(crate::specs::Writing::whole_of, crate::specs::Writing::padded))]
fn event_bytes(event: Event) -> Written
    requires { InRange event }
    ensures { result ≡ whole_of event }
{
    match event {
        Event::At { channel, touch } => match touch {
            Touch::Write { address, byte } => {
                if byte < TWO_GROUPS {
                    return whole([Kind::Write as u8, channel, address, byte, 0], 4);
                }
                whole([Kind::Write as u8, channel, address, byte, 1], 5)
            }
            Touch::Read { address } => whole([Kind::Read as u8, channel, address, 0, 0], 3),
            Touch::Arrival { byte, mark } => {
                if byte < TWO_GROUPS {
                    return whole([Kind::Arrival as u8, channel, byte, mark, 0], 4);
                }
                whole([Kind::Arrival as u8, channel, byte, 1, mark], 5)
            }
            Touch::Slot => whole([Kind::Slot as u8, channel, 0, 0, 0], 2),
            Touch::Pins { value } => whole([Kind::Pins as u8, channel, value, 0, 0], 3),
            Touch::Quiet => whole([Kind::Quiet as u8, channel, 0, 0, 0], 2),
            Touch::RtsLook => whole([Kind::RtsLook as u8, channel, 0, 0, 0], 2),
        },
        Event::Reset => whole([Kind::Reset as u8, 0, 0, 0, 0], 1),
        Event::IrqLook => whole([Kind::IrqLook as u8, 0, 0, 0, 0], 1),
    }
}

// The event of plain numbers, those of `event_of`, written.
#[tactic(auto, using(event::specs::Laws::made_in_range), unfolding(crate::specs::Writing::written_of))]
pub fn write(kind: u64, x: u64, y: u64, z: u64) -> Written
    ensures { result ≡ written_of (event_of kind x y z) }
{
    match event_of(kind, x, y, z) {
        Ok(event) => event_bytes(event),
        Err(refusal) => Written {
            bytes: [0; 5],
            count: 0,
            refusal: refusal.number(),
        },
    }
}

// The event of plain numbers, written at the start of a buffer where it fits: the count of its bytes, 0 where it does
// not fit, or 512 and the refusal number, as C is told (`Put`). What it puts is what `write` gives (`put_written`).
#[tactic(auto, using(event::specs::Laws::made_in_range), unfolding(crate::specs::Writing::put_answer, crate::specs::Writing::put_into, crate::specs::Writing::whole_of, crate::specs::Writing::padded))]
pub fn put_event(out: &mut [u8], kind: u64, x: u64, y: u64, z: u64) -> u32
    ensures { Put out.old (event_of kind x y z) out.new result }
{
    let event = match event_of(kind, x, y, z) {
        Ok(event) => event,
        Err(refusal) => return refused_answer(refusal.number()),
    };
    let written = event_bytes(event);
    let count = usize::from(written.count);
    if out.len() < count {
        return 0;
    }
    out[..count].copy_from_slice(&written.bytes[..count]);
    u32::from(written.count)
}
