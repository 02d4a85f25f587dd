// The chip as an archive for C: three functions over a record that the caller keeps and lends. They are those of `sc16is752` again, since
// a crate is a library or an archive and not both.
#![tactic(auto)]

ghost use Rattle.std.specs.Prelude.{◌≡◌};
ghost use Rattle.event.specs.Events.{event_of};
ghost use Rattle.device.specs.Reset.{new_device};
ghost use Rattle.device.specs.Device.{WellFormed};
ghost use Rattle.lent.specs.Lent.{Advanced};
ghost use Rattle.lent.specs.Drain.{Emptied};

use device::Device;

// The lent record is a new device's afterwards.
#[unsafe(no_mangle)]
pub extern "C" fn sc16is752_new(chip: &mut Device)
    ensures { chip.new ≡ new_device }
{
    sc16is752::sc16is752_new(chip)
}

// One event, from plain numbers, on the lent record: the reply, or 512 and the refusal number.
#[unsafe(no_mangle)]
pub extern "C" fn sc16is752_step(chip: &mut Device, kind: u64, x: u64, y: u64, z: u64) -> u32
    requires { WellFormed chip.old }
    ensures { Advanced chip.old (event_of kind x y z) chip.new result }
{
    sc16is752::sc16is752_step(chip, kind, x, y, z)
}

// A receive queue emptied at one go into the lent bytes: how many were put there.
#[unsafe(no_mangle)]
pub extern "C" fn sc16is752_drain(
    chip: &mut Device,
    channel: u64,
    most: u64,
    buffer: &mut [u8],
) -> usize
    requires { WellFormed chip.old }
    ensures { Emptied chip.old channel most buffer.old (record { device = chip.new; count = result }) buffer.new }
{
    sc16is752::sc16is752_drain(chip, channel, most, buffer)
}
