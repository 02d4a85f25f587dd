// The event at a place of an event file.
ghost use Rattle.std.specs.Prelude.{◌≡◌};
ghost use Rattle.event.specs.Kinds.{kind_number};
ghost use Rattle.file.specs.Reading.{operands_at, read_at};

use crate::number::{number_at, operand_at};
use event::{Event, Kind, Refusal, event_of};

const LIMIT: usize = 65536;

// An event that was read, or the refusal of one that is passed over, and the place after it.
#[derive(Clone, Copy)]
pub struct Reading {
    pub event: Result<Event, Refusal>,
    pub next: usize,
}

// The event of a kind that was read, from its operands.
#[tactic(auto, unfolding(crate::specs::Reading::operands_at))]
fn operands_at(input: &[u8], kind: Kind, at: usize) -> Result<Option<Reading>, Refusal>
    ensures { result ≡ operands_at input.now (kind_number kind) at }
{
    let count = kind.operands();
    let x = operand_at(input, 0 < count, at)?;
    let y = operand_at(input, 1 < count, x.next)?;
    let z = operand_at(input, 2 < count, y.next)?;
    let event = event_of(
        u64::from(kind.number()),
        u64::from(x.value),
        u64::from(y.value),
        u64::from(z.value),
    );
    Ok(Some(Reading {
        event,
        next: z.next,
    }))
}

// What stands at a place, nothing at the end; a refusal that ends the run is an error.
#[tactic(auto, unfolding(crate::specs::Reading::read_at))]
pub fn read_at(input: &[u8], at: usize) -> Result<Option<Reading>, Refusal>
    ensures { result ≡ read_at input.now at }
{
    if LIMIT < input.len() {
        return Err(Refusal::Long);
    }
    if input.len() <= at {
        return Ok(None);
    }
    let number = number_at(input, at)?;
    let kind = Kind::try_from(u64::from(number.value))?;
    operands_at(input, kind, number.next)
}
