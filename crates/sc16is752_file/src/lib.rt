// The writer of event files as C sees it.
#![tactic(auto)]

ghost use Rattle.event.specs.Events.{event_of};
ghost use Rattle.writer.specs.Writing.{Put};

use writer::put_event;

// An event, from plain numbers, as an event file has it, at the start of the lent bytes where it fits: the count of its
// bytes, 0 where they do not fit, or 512 and the refusal number.
pub fn sc16is752_event_bytes(kind: u64, x: u64, y: u64, z: u64, bytes: &mut [u8]) -> u32
    ensures { Put bytes.old (event_of kind x y z) bytes.new result }
{
    put_event(bytes, kind, x, y, z)
}
