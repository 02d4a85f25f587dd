// Events, and an event made from plain numbers.
ghost use Rattle.std.specs.Prelude.{◌≡◌, Ok};
ghost use Rattle.event.specs.declared.events.Touch.TheVariants as touch;
ghost use Rattle.event.specs.Events.{event_at, event_of, judged_of, touch_judged, channel_in, address_in, byte_in, mark_in, pins_in, up_to};

use crate::kind::Kind;
use crate::refusal::Refusal;

// What happens at the channel that an event names, in plain bytes. That they are in range is a clause (`TouchIn`) and no type, since
// `Device::step` judges any event.
#[derive(Clone, Copy)]
pub enum Touch {
    Write { address: u8, byte: u8 },
    Read { address: u8 },
    Arrival { byte: u8, mark: u8 },
    Slot,
    Pins { value: u8 },
    Quiet,
    RtsLook,
}

// An event names a channel and says what happens there, or is one of the whole device.
#[derive(Clone, Copy)]
pub enum Event {
    At { channel: u8, touch: Touch },
    Reset,
    IrqLook,
}

// An operand in its range, else its refusal.
fn in_range(operand: u64, most: u8, refusal: Refusal) -> Result<u8, Refusal>
    ensures { result ≡ up_to most refusal operand (Ok operand) }
{
    if u64::from(most) < operand {
        return Err(refusal);
    }
    Ok(operand as u8)
}

fn write(address: u64, byte: u64) -> Result<Touch, Refusal>
    ensures { result ≡ address_in address (byte_in byte (Ok (touch.Write address byte))) }
{
    Ok(Touch::Write {
        address: in_range(address, 15, Refusal::Address)?,
        byte: in_range(byte, 255, Refusal::Byte)?,
    })
}

fn read(address: u64) -> Result<Touch, Refusal>
    ensures { result ≡ address_in address (Ok (touch.Read address)) }
{
    Ok(Touch::Read {
        address: in_range(address, 15, Refusal::Address)?,
    })
}

fn arrival(byte: u64, mark: u64) -> Result<Touch, Refusal>
    ensures { result ≡ byte_in byte (mark_in mark (Ok (touch.Arrival byte mark))) }
{
    Ok(Touch::Arrival {
        byte: in_range(byte, 255, Refusal::Byte)?,
        mark: in_range(mark, 7, Refusal::Mark)?,
    })
}

fn pins(value: u64) -> Result<Touch, Refusal>
    ensures { result ≡ pins_in value (Ok (touch.Pins value)) }
{
    Ok(Touch::Pins {
        value: in_range(value, 15, Refusal::Pins)?,
    })
}

// The event at a channel, which is judged first.
fn at(channel: u64, touch: Result<Touch, Refusal>) -> Result<Event, Refusal>
    ensures { result ≡ channel_in channel (event_at channel touch) }
{
    let channel = in_range(channel, 1, Refusal::Channel)?;
    Ok(Event::At {
        channel,
        touch: touch?,
    })
}

// The event of a kind and its operands, four numbers as C passes them; those that the kind lacks are not looked at.
#[tactic(auto, unfolding(crate::specs::Events::event_of, crate::specs::Events::touch_of))]
pub fn event_of(kind: u64, x: u64, y: u64, z: u64) -> Result<Event, Refusal>
    ensures { result ≡ event_of kind x y z }
{
    match Kind::try_from(kind)? {
        Kind::Write => at(x, write(y, z)),
        Kind::Read => at(x, read(y)),
        Kind::Arrival => at(x, arrival(y, z)),
        Kind::Slot => at(x, Ok(Touch::Slot)),
        Kind::Pins => at(x, pins(y)),
        Kind::Quiet => at(x, Ok(Touch::Quiet)),
        Kind::Reset => Ok(Event::Reset),
        Kind::IrqLook => Ok(Event::IrqLook),
        Kind::RtsLook => at(x, Ok(Touch::RtsLook)),
    }
}

impl Touch {
    // What happens itself where its values are in range, else its refusal.
    #[tactic(auto, unfolding(crate::specs::Events::touch_judged, crate::specs::Events::touch_of))]
    fn judged(self) -> Result<Touch, Refusal>
        ensures { result ≡ touch_judged self }
    {
        match self {
            Touch::Write { address, byte } => write(u64::from(address), u64::from(byte)),
            Touch::Read { address } => read(u64::from(address)),
            Touch::Arrival { byte, mark } => arrival(u64::from(byte), u64::from(mark)),
            Touch::Pins { value } => pins(u64::from(value)),
            Touch::Slot | Touch::Quiet | Touch::RtsLook => Ok(self),
        }
    }
}

impl Event {
    // The event itself where its values are in range, else its refusal.
    #[tactic(auto, unfolding(crate::specs::Events::judged_of, crate::specs::Events::event_of, crate::specs::Events::touch_judged))]
    pub fn judged(self) -> Result<Event, Refusal>
        ensures { result ≡ judged_of self }
    {
        match self {
            Event::At { channel, touch } => at(u64::from(channel), touch.judged()),
            Event::Reset | Event::IrqLook => Ok(self),
        }
    }
}
