// The two channels by name.
ghost use Rattle.std.specs.Prelude.{◌≡◌};
ghost use Rattle.device.specs.Device.{side_numbered};

#[derive(Clone, Copy, PartialEq, Eq)]
pub enum Side {
    A,
    B,
}

// The channel of a number: 0, or else 1.
impl From<u8> for Side {
    ghost from_gives = { λ channel side. side ≡ side_numbered channel };

    #[tactic(auto, unfolding(crate::specs::Device::side_numbered))]
    fn from(channel: u8) -> Side {
        if channel == 0 { Side::A } else { Side::B }
    }
}
