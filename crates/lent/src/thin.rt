// The thin step over a lent record: what the by-value step of a channel says is stored where it lies.
ghost use Rattle.std.specs.Prelude.{◌≡◌};
ghost use Rattle.event.specs.Events.{TouchIn, event_of};
ghost use Rattle.channel.specs.Channel.{WellFormed as ChannelWellFormed};
ghost use Rattle.acts.specs.Step.{step_at, touched_by};
ghost use Rattle.device.specs.Device.{WellFormed, named_step};
ghost use Rattle.lent.specs.Lent.{Touched, Advanced};

use acts::step;
use channel::Channel;
use device::{Device, Side, irq};
use event::{Event, Touch, event_of, refused_answer};
use queue::settle;

// What is given for an event at a channel: whether the device is to be reset, and the reply.
#[derive(Clone, Copy)]
pub(crate) struct Gave {
    pub(crate) resets: bool,
    pub(crate) reply: u16,
}

// An event on the lent record of the channel that it names. The stored registers are written only where one is set.
pub(crate) fn advance_channel(lent: &mut Channel, touch: Touch) -> Gave
    requires { ChannelWellFormed lent.old × TouchIn touch }
    ensures gave { (result.resets ≡ (step_at lent.old touch).resets) × (result.reply ≡ (step_at lent.old touch).reply) }
    ensures lent_after { lent.new ≡ touched_by lent.old touch }
{
    let step = step(*lent, touch);
    lent.state = step.state;
    settle(&mut lent.rx, step.rx);
    settle(&mut lent.tx, step.tx);
    if step.setting.is_some() {
        lent.settings = step.settings;
    }
    Gave {
        resets: step.resets,
        reply: step.reply,
    }
}

// The same on the lent record of the device; the other channel stays as it was. Each arm lends its own field: with the borrow picked
// first the proof did not close.
fn touch_channel(lent: &mut Device, side: Side, touch: Touch) -> Gave
    requires { WellFormed lent.old × TouchIn touch }
    ensures { Touched lent.old side touch lent.new result }
{
    match side {
        Side::A => advance_channel(&mut lent.a, touch),
        Side::B => advance_channel(&mut lent.b, touch),
    }
}

// The same with the reset that the event may ask for.
fn advance_named(lent: &mut Device, side: Side, touch: Touch) -> u16
    requires { WellFormed lent.old × TouchIn touch }
    ensures { record { device = lent.new; reply = result } ≡ named_step lent.old side touch }
{
    let gave = touch_channel(lent, side, touch);
    if gave.resets {
        *lent = lent.reset();
    }
    gave.reply
}

// One event from plain numbers on a lent record, which is the next one afterwards; the answer as one number, as C is told
// (`Advanced`).
#[tactic(auto, using(device::specs::Laws::made_in, crate::specs::Laws::touch_in, bits::specs::Conditions::from_one_if), unfolding(device::specs::Device::answered_of, device::specs::Device::step_of, device::specs::Device::answer_number))]
pub fn advance(lent: &mut Device, kind: u64, x: u64, y: u64, z: u64) -> u32
    requires { WellFormed lent.old }
    ensures { Advanced lent.old (event_of kind x y z) lent.new result }
{
    match event_of(kind, x, y, z) {
        Ok(Event::At { channel, touch }) => {
            u32::from(advance_named(lent, Side::from(channel), touch))
        }
        Ok(Event::Reset) => {
            *lent = lent.reset();
            0
        }
        Ok(Event::IrqLook) => u32::from(irq(lent.a, lent.b)),
        Err(refusal) => refused_answer(refusal.number()),
    }
}
