// The writer of event files as an archive for C. It is that of `sc16is752_file` again, since a crate is a library or an archive and
// not both.
#![tactic(auto)]

ghost use Rattle.event.specs.Events.{event_of};
ghost use Rattle.writer.specs.Writing.{Put};

// As `sc16is752_file` has it.
#[unsafe(no_mangle)]
pub extern "C" fn sc16is752_event_bytes(kind: u64, x: u64, y: u64, z: u64, bytes: &mut [u8]) -> u32
    ensures { Put bytes.old (event_of kind x y z) bytes.new result }
{
    sc16is752_file::sc16is752_event_bytes(kind, x, y, z, bytes)
}
