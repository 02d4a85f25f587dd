// The device record and its step by value.
ghost use Rattle.std.specs.Prelude.{◌≡◌};
ghost use Rattle.event.specs.Events.{TouchIn, InRange, event_of, judged_of};
ghost use Rattle.channel.specs.Channel.{WellFormed as ChannelWellFormed};
ghost use Rattle.device.specs.Device.{WellFormed, channel_at, with_channel, given_for, named_step, irq_of, step_of, answered_of, answer_number};
ghost use Rattle.device.specs.Laws.{MadeIn};

use crate::side::Side;
use acts::step;
use channel::Channel;
use event::{Event, Refusal, Touch, event_of, refused_answer};

// That it is well formed is a clause, as of its channels, and for the same reason.
#[repr(C)]
#[derive(Clone, Copy)]
pub struct Device {
    pub a: Channel,
    pub b: Channel,
}

// A device after an event in range, and the reply.
#[derive(Clone, Copy)]
pub struct Stepped {
    pub device: Device,
    pub reply: u16,
}

// What an event is answered with: the reply, or why it is refused.
pub type Answer = Result<u16, Refusal>;

#[derive(Clone, Copy)]
pub struct Outcome {
    pub device: Device,
    pub answer: Answer,
}

// An answer as one number: the reply, or the refusal above all replies. A function, since no `From` can be written for a Result.
#[tactic(auto, unfolding(crate::specs::Device::answer_number))]
pub fn answer_number(answer: Answer) -> u32
    ensures { result ≡ answer_number answer }
{
    match answer {
        Ok(reply) => u32::from(reply),
        Err(refusal) => refused_answer(refusal.number()),
    }
}

// Whether either of two channels has an interrupt pending.
#[tactic(auto, unfolding(crate::specs::Device::irq_of))]
pub fn irq(a: Channel, b: Channel) -> bool
    requires { ChannelWellFormed a × ChannelWellFormed b }
    ensures { result ≡ irq_of a b }
{
    a.pending().pending() | b.pending().pending()
}

impl Device {
    // With the reply, and reset if the event resets the device.
    #[tactic(auto, unfolding(crate::specs::Device::given_for))]
    fn given(self, resets: bool, reply: u16) -> Stepped
        ensures { result ≡ given_for self resets reply }
    {
        let device = if resets { self.reset() } else { self };
        Stepped { device, reply }
    }

    fn channel(self, side: Side) -> Channel
        ensures { result ≡ channel_at self side }
    {
        match side {
            Side::A => self.a,
            Side::B => self.b,
        }
    }

    // With another record in a channel's place; the other channel stays as it was.
    fn with_channel(self, side: Side, channel: Channel) -> Device
        ensures { result ≡ with_channel self side channel }
    {
        match side {
            Side::A => Device { a: channel, ..self },
            Side::B => Device { b: channel, ..self },
        }
    }

    // The step on an event that names a channel.
    #[tactic(auto, using(crate::specs::Laws::well_formed_at, acts::specs::Laws::step_in, crate::specs::Laws::named_in_turn))]
    fn named(self, side: Side, touch: Touch) -> Stepped
        requires { WellFormed self × TouchIn touch }
        ensures { result ≡ named_step self side touch }
    {
        let channel = self.channel(side);
        let step = step(channel, touch);
        let device = self.with_channel(side, channel.after(step));
        device.given(step.resets, step.reply)
    }

    // The step on an event whose values are in range.
    #[tactic(auto, using(bits::specs::Conditions::from_one_if), unfolding(crate::specs::Device::step_of))]
    fn stepped(self, event: Event) -> Stepped
        requires { WellFormed self × InRange event }
        ensures { result ≡ step_of self event }
    {
        match event {
            Event::At { channel, touch } => self.named(Side::from(channel), touch),
            Event::Reset => Stepped {
                device: self.reset(),
                reply: 0,
            },
            Event::IrqLook => Stepped {
                device: self,
                reply: u16::from(irq(self.a, self.b)),
            },
        }
    }

    #[tactic(auto, unfolding(crate::specs::Device::answered_of))]
    fn answered(self, made: Result<Event, Refusal>) -> Outcome
        requires { WellFormed self × MadeIn made }
        ensures { result ≡ answered_of self made }
    {
        match made {
            Ok(event) => {
                let done = self.stepped(event);
                Outcome {
                    device: done.device,
                    answer: Ok(done.reply),
                }
            }
            Err(refusal) => Outcome {
                device: self,
                answer: Err(refusal),
            },
        }
    }

    // The step on an event, refused where one of its values is out of range.
    #[tactic(auto, using(crate::specs::Laws::judged_in))]
    pub fn step(self, event: Event) -> Outcome
        requires { WellFormed self }
        ensures { result ≡ answered_of self (judged_of event) }
    {
        self.answered(event.judged())
    }

    // The step from plain numbers, those of `event_of`.
    #[tactic(auto, using(crate::specs::Laws::made_in))]
    pub fn step_numbers(self, kind: u64, x: u64, y: u64, z: u64) -> Outcome
        requires { WellFormed self }
        ensures { result ≡ answered_of self (event_of kind x y z) }
    {
        self.answered(event_of(kind, x, y, z))
    }
}
