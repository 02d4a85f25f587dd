// What only a caller in Rattle meets: the part of its own buffer that a drain hands back, and the whole of it again afterwards.
ghost use Rattle.device.specs.Device.{WellFormed};

use super::*;
use device::Device;

// One event; the record stays well formed.
fn step(chip: &mut Device, kind: u64, x: u64, y: u64, z: u64)
    requires { WellFormed chip.old }
    ensures { WellFormed chip.new }
{
    let _answer = advance(chip, kind, x, y, z);
}

#[test]
#[tactic(auto, using(device::specs::Laws::well_formed_new))]
fn a_part_of_the_callers_buffer(rt: HostRuntime) {
    let mut chip = Device::new();
    step(&mut chip, 0, 0, 2, 1);
    step(&mut chip, 2, 0, 0x11, 0);
    step(&mut chip, 2, 0, 0x12, 0);
    step(&mut chip, 2, 0, 0x13, 0);
    let mut buffer = [0xA5; 5];
    let part = drain(&mut chip, 0, 64, &mut buffer);
    assert_eq!(rt; part.len(), 3);
    part[1] = 0;
    assert_eq!(rt; buffer.as_slice(), [0x11, 0, 0x13, 0xA5, 0xA5].as_slice());
}
