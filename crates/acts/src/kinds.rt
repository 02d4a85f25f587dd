// What an event does at the channel that it names, kind by kind, before the channel settles.
#![tactic(auto, using(queue::specs::Laws::moved_pick, queue::specs::Laws::offered_or_not, lines::specs::Laws::loaded_or_not, levels::specs::Laws::room_in, registers::specs::Laws::equal_is_same, bits::specs::Conditions::from_one_if,), unfolding(crate::specs::Acts::act_of, crate::specs::Acts::act_with, crate::specs::Acts::lines_act, crate::specs::Acts::write_act, crate::specs::Acts::read_act, crate::specs::Acts::arrival_act, crate::specs::Acts::slot_act, crate::specs::Acts::pins_act, crate::specs::Acts::quiet_act, crate::specs::Acts::look_act, crate::specs::Touches::setting_by, crate::specs::Touches::receive_change, crate::specs::Touches::transmit_change, crate::specs::Touches::sent_by, crate::specs::Touches::resets_by, queue::specs::Queue::moved_by,))]

ghost use Rattle.std.specs.Prelude.{◌≡◌, ◌<◌};
ghost use Rattle.queue.specs.Queue.{moved_by};
ghost use Rattle.event.specs.Events.{TouchIn};
ghost use Rattle.lines.specs.Transmit.{transmit_room};
ghost use Rattle.channel.specs.Channel.{WellFormed};
ghost use Rattle.acts.specs.Touches.{sent_by};
ghost use Rattle.acts.specs.Acts.{lines_act, write_act, read_act, arrival_act, slot_act, pins_act, quiet_act, look_act, act_of};

use bits::chosen;
use channel::{Act, Channel, State};
use event::Touch;
use levels::{clears, loads, room};
use lines::{Shift, TRANSMIT_ROOM};
use queue::{Character, Moved};
use receiver::{Arrival, fate};
use registers::{Register, Write};

// No register is set and the queues stay.
fn lines_only(channel: Channel, state: State, reply: u16) -> Act
    ensures { result ≡ lines_act channel state reply }
{
    Act {
        setting: None,
        state,
        rx: channel.rx.stays(),
        tx: channel.tx.stays(),
        reply,
        resets: false,
    }
}

// What a write does to the transmit queue.
fn sends(channel: Channel, write: Write) -> Moved
    requires { WellFormed channel }
    ensures { result ≡ moved_by channel.tx (sent_by channel.settings write.register write.byte) transmit_room }
{
    if write.register == Register::RhrThr {
        let character = Character {
            byte: write.byte,
            mark: 0,
        };
        return channel.tx.adds(Some(character), TRANSMIT_ROOM);
    }
    let clears = clears(channel.settings, write, 2);
    channel.tx.clears(clears)
}

fn write(channel: Channel, address: u8, byte: u8) -> Act
    requires { WellFormed channel }
    ensures { result ≡ write_act channel address byte }
{
    let register = channel.settings.register(address);
    let write = Write { register, byte };
    let clears = clears(channel.settings, write, 1);
    let lined = channel.state.with_line(channel.state.line.cleared(clears));
    Act {
        setting: channel.settings.written(write),
        state: lined.with_flow(channel.state.flow.written(write)),
        rx: channel.rx.clears(clears),
        tx: sends(channel, write),
        reply: 0,
        resets: write.resets_device(),
    }
}

fn read(channel: Channel, address: u8) -> Act
    requires { WellFormed channel }
    ensures { result ≡ read_act channel address }
{
    let register = channel.settings.register(address);
    let shown = channel.shown(register);
    let lined = channel.state.with_line(channel.state.line.read(register));
    let seen = lined.with_modem(channel.state.modem.read(register));
    Act {
        setting: None,
        state: seen.with_flags(channel.state.flags.cleared(shown)),
        rx: channel.rx.takes(register == Register::RhrThr),
        tx: channel.tx.stays(),
        reply: u16::from(channel.gives(register, shown)),
        resets: false,
    }
}

// A character that arrives with its mark.
fn arrival(channel: Channel, arrival: Arrival) -> Act
    requires { WellFormed channel }
    ensures { result ≡ arrival_act channel arrival.byte arrival.mark }
{
    let heard = arrival.heard_by(channel.settings);
    let gate = heard.gate;
    let character = Character {
        byte: arrival.arrived_byte(channel.settings),
        mark: arrival.mark,
    };
    let offered = gate.passes().then_some(character);
    let moved = channel.rx.adds(offered, room(channel.settings));
    let line = channel.state.line.arrived(moved.kept);
    let lined = channel.state.with_line(line);
    let flagged = lined.with_flags(channel.state.flags.arrived(heard.special));
    Act {
        setting: heard.setting,
        state: flagged.with_flow(channel.state.flow.heard(channel.settings, gate)),
        rx: moved,
        tx: channel.tx.stays(),
        reply: fate(gate, moved.kept),
        resets: false,
    }
}

// A character time of the transmitter.
fn slot(channel: Channel) -> Act
    requires { WellFormed channel }
    ensures { result ≡ slot_act channel }
{
    let oldest = channel.tx.oldest();
    let flow = channel.state.flow;
    let sends = flow.sends(channel.settings);
    let loads = loads(channel.settings, channel.state.modem.cts()) & flow.frees();
    let some = sends | (loads & (channel.tx.count != 0));
    let character = chosen(sends, flow.byte, oldest.byte);
    let shift = Shift::loaded(some.then_some(character));
    let shifted = channel.state.with_shift(shift);
    Act {
        setting: None,
        state: shifted.with_flow(flow.sent(sends)),
        rx: channel.rx.stays(),
        tx: channel.tx.takes(loads),
        reply: channel.state.shift.leaving(channel.settings),
        resets: false,
    }
}

// New values of the modem pins.
fn pins(channel: Channel, value: u8) -> Act
    requires { value < 16 }
    ensures { result ≡ pins_act channel value }
{
    let modem = channel.state.modem;
    let moved = channel.state.with_modem(modem.changed(value));
    let off = modem.cts_off(channel.settings, value);
    let flags = channel.state.flags.pins(off);
    lines_only(channel, moved.with_flags(flags), 0)
}

// A quiet character time of the receiver.
fn quiet(channel: Channel) -> Act
    requires { WellFormed channel }
    ensures { result ≡ quiet_act channel }
{
    let line = channel.state.line.quieter();
    lines_only(channel, channel.state.with_line(line), 0)
}

// A look at RTS, as it is before the channel settles.
fn rts_look(channel: Channel) -> Act
    requires { WellFormed channel }
    ensures { result ≡ look_act channel }
{
    lines_only(channel, channel.state, u16::from(channel.rts()))
}

// An event whose values are in range.
pub fn act(channel: Channel, touch: Touch) -> Act
    requires { WellFormed channel × TouchIn touch }
    ensures { result ≡ act_of channel touch }
{
    match touch {
        Touch::Write { address, byte } => write(channel, address, byte),
        Touch::Read { address } => read(channel, address),
        Touch::Arrival { byte, mark } => arrival(channel, Arrival { byte, mark }),
        Touch::Slot => slot(channel),
        Touch::Pins { value } => pins(channel, value),
        Touch::Quiet => quiet(channel),
        Touch::RtsLook => rts_look(channel),
    }
}
