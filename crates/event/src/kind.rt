// The kinds of event, which document 01 numbers from 0.
ghost use Rattle.std.specs.Prelude.{◌≡◌};
ghost use Rattle.event.specs.Kinds.{kind_number, operand_count, NamedBy};

use crate::refusal::Refusal;

#[derive(Clone, Copy, PartialEq, Eq)]
pub enum Kind {
    Write = 0,
    Read,
    Arrival,
    Slot,
    Pins,
    Quiet,
    Reset,
    IrqLook,
    RtsLook,
}

impl TryFrom<u64> for Kind {
    type Error = Refusal;

    ghost try_from_gives = { NamedBy };

    fn try_from(number: u64) -> Result<Kind, Refusal> {
        match number {
            0 => Ok(Kind::Write),
            1 => Ok(Kind::Read),
            2 => Ok(Kind::Arrival),
            3 => Ok(Kind::Slot),
            4 => Ok(Kind::Pins),
            5 => Ok(Kind::Quiet),
            6 => Ok(Kind::Reset),
            7 => Ok(Kind::IrqLook),
            8 => Ok(Kind::RtsLook),
            _ => Err(Refusal::Kind),
        }
    }
}

impl Kind {
    // Document 01's number.
    pub fn number(self) -> u8
        ensures { result ≡ kind_number self }
    {
        self as u8
    }

    // How many operands an event of the kind has.
    pub fn operands(self) -> u8
        ensures { result ≡ operand_count (kind_number self) }
    {
        match self {
            Kind::Write | Kind::Arrival => 3,
            Kind::Read | Kind::Pins => 2,
            Kind::Slot | Kind::Quiet | Kind::RtsLook => 1,
            Kind::Reset | Kind::IrqLook => 0,
        }
    }
}
