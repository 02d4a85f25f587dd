// A receive queue emptied at one go: reads of RHR into a buffer that the caller lends.
ghost use Rattle.std.specs.Prelude.{◌≡◌, ◌<◌, length};
ghost use Rattle.std.specs.Borrow.{sem};
ghost use Rattle.queue.specs.Queue.{WellFormed as QueueWellFormed, takes_from, oldest_of, after_of};
ghost use Rattle.channel.specs.Channel.{WellFormed as ChannelWellFormed};
ghost use Rattle.acts.specs.Step.{step_at, touched_by};
ghost use Rattle.device.specs.Device.{WellFormed, channel_at, with_channel, side_numbered};
ghost use Rattle.lent.specs.Drain.{read_rhr, part_length, drained_of, part_of, Emptied, LendsPart};
ghost use Rattle.lent.specs.Reads.{channel_after, channel_replies, Open};

use crate::thin::advance_channel;
use bits::bit;
use channel::Channel;
use device::{Device, Side};
use event::Touch;
use queue::{Queue, settle};

// Where RHR is read, in the general set.
const RHR: u8 = 0;

// What is left of the device, and how many bytes the buffer was given.
#[derive(Clone, Copy)]
pub struct Drained {
    pub device: Device,
    pub count: usize,
}

// A read of RHR at a lent channel.
#[tactic(auto, using(crate::proofs::Reading::read_is_byte))]
fn read(lent: &mut Channel) -> u8
    requires { ChannelWellFormed lent.old }
    ensures gave { result ≡ (step_at lent.old read_rhr).reply }
    ensures lent_after { lent.new ≡ touched_by lent.old read_rhr }
{
    advance_channel(lent, Touch::Read { address: RHR }).reply as u8
}

// The oldest character of a lent queue, which loses it.
#[tactic(auto, unfolding(queue::specs::Queue::takes_from))]
fn take(lent: &mut Queue) -> u8
    requires { QueueWellFormed lent.old }
    ensures gave { result ≡ (oldest_of lent.old).byte }
    ensures lent_after { lent.new ≡ after_of lent.old (takes_from lent.old) }
{
    let byte = lent.oldest().byte;
    settle(lent, lent.takes(true));
    byte
}

// A read of RHR for each byte of the part; no byte is changed but by its read. The first leaves the channel settled. After it the count
// only falls, so that a latch can only turn on, which the last read does too: those between need only take their character.
fn reads(part: &mut [u8], channel: Channel) -> Channel
    requires { ChannelWellFormed channel × (0 < length part.old → Open channel) }
    ensures { (result ≡ channel_after channel (length part.old)) × (part.new ≡ channel_replies channel (length part.old)) }
{
    let mut channel = channel;
    if part.len() == 0 {
        return channel;
    }
    let last = part.len() - 1;
    part[0] = read(&mut channel);
    if last == 0 {
        return channel;
    }
    for i in 1..last {
        part[i] = take(&mut channel.rx);
    }
    part[last] = read(&mut channel);
    channel
}

// The channel of any number. One above 1 is taken for channel 1, where no read is made for it.
#[tactic(auto, unfolding(device::specs::Device::side_numbered))]
fn side_named(channel: u64) -> Side
    ensures { result ≡ side_numbered channel }
{
    Side::from(channel.min(1) as u8)
}

// How many reads a drain makes.
#[tactic(auto, unfolding(crate::specs::Drain::part_length, crate::specs::Drain::is_open))]
fn part_length(device: Device, channel: u64, most: u64, room: usize) -> usize
    requires { WellFormed device }
    ensures { result ≡ part_length device channel most room }
{
    if 1 < channel {
        return 0;
    }
    let from = match side_named(channel) {
        Side::A => device.a,
        Side::B => device.b,
    };
    if bit(from.settings.lcr, 7) {
        return 0;
    }
    most.min(u64::from(from.rx.count)).min(room as u64) as usize
}

// The reads at a channel of a device.
fn reads_at(part: &mut [u8], device: Device, side: Side) -> Device
    requires { WellFormed device × (0 < length part.old → Open (channel_at device side)) }
    ensures device_after { result ≡ with_channel device side (channel_after (channel_at device side) (length part.old)) }
    ensures replies { part.new ≡ channel_replies (channel_at device side) (length part.old) }
{
    match side {
        Side::A => Device {
            a: reads(part, device.a),
            ..device
        },
        Side::B => Device {
            b: reads(part, device.b),
            ..device
        },
    }
}

// A drain by value.
#[tactic(auto, using(crate::specs::DrainLaws::part_within, crate::proofs::Parts::front_count, crate::proofs::Parts::front_opened, crate::proofs::Parts::drained_is, crate::proofs::Parts::filled_is))]
pub fn drain_into(buffer: &mut [u8], device: Device, channel: u64, most: u64) -> Drained
    requires { WellFormed device }
    ensures { Emptied device channel most buffer.old result buffer.new }
{
    let count = part_length(device, channel, most, buffer.len());
    Drained {
        device: reads_at(&mut buffer[..count], device, side_named(channel)),
        count,
    }
}

// A drain on a lent record, and how many bytes the buffer was given.
pub fn fill(lent: &mut Device, channel: u64, most: u64, buffer: &mut [u8]) -> usize
    requires { WellFormed lent.old }
    ensures { Emptied lent.old channel most buffer.old (record { device = lent.new; count = result }) buffer.new }
{
    let drained = drain_into(buffer, *lent, channel, most);
    *lent = drained.device;
    drained.count
}

// The same, with the part of the caller's own buffer that was filled.
pub fn drain<'a>(lent: &mut Device, channel: u64, most: u64, buffer: &'a mut [u8]) -> &'a mut [u8]
    requires { WellFormed lent.old }
    ensures* later_bytes_stay { sem 𝓛 (LendsPart lent.old channel most buffer.entry result) }
    ensures part { result.now ≡ part_of lent.old channel most (length buffer.old) }
    ensures start { result.ref_ptr ≡ buffer.entry.ref_ptr }
    ensures device_after { lent.new ≡ (drained_of lent.old channel most (length buffer.old)).device }
{
    let count = fill(lent, channel, most, buffer);
    &mut buffer[..count]
}
