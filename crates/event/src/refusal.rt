// Why an event, a number or a whole input is refused, which document 01 numbers from 1.
ghost use Rattle.std.specs.Prelude.{◌≡◌};
ghost use Rattle.event.specs.Refusals.{refusal_number, refused_answer};

// What a refusal's number is added to where an answer is one number.
const REFUSED: u32 = 512;

#[derive(Clone, Copy, PartialEq, Eq)]
pub enum Refusal {
    Number = 1,
    Short,
    Kind,
    Channel,
    Address,
    Byte,
    Mark,
    Pins,
    Long,
}

impl Refusal {
    // Document 01's number.
    pub fn number(self) -> u8
        ensures { result ≡ refusal_number self }
    {
        self as u8
    }
}

// The number of a refusal where an answer is one number, above all replies. It takes the number, since a `Refusal` would ask more
// of its caller.
pub fn refused_answer(number: u8) -> u32
    ensures { result ≡ refused_answer number }
{
    REFUSED + u32::from(number)
}
