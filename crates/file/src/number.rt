// A number of an event file: one or two groups of seven bits, lowest first, shortest form only. The input and the place are two
// parameters, as `read_at` is asked: a reader of both would be made anew at each number, and is no plainer.
ghost use Rattle.std.specs.Prelude.{◌≡◌};
ghost use Rattle.file.specs.Numbers.{number_at, operand_at};

use event::Refusal;

// A number that was read, and the place after it.
#[derive(Clone, Copy)]
pub struct Number {
    pub value: u16,
    pub next: usize,
}

// The number at a place of the input.
#[tactic(auto, unfolding(crate::specs::Numbers::number_at, crate::specs::Numbers::second_at))]
pub fn number_at(input: &[u8], at: usize) -> Result<Number, Refusal>
    ensures { result ≡ number_at input.now at }
{
    if input.len() <= at {
        return Err(Refusal::Short);
    }
    let low = input[at];
    if low < 128 {
        return Ok(Number {
            value: u16::from(low),
            next: at + 1,
        });
    }
    let second = at + 1;
    if input.len() <= second {
        return Err(Refusal::Short);
    }
    let high = input[second];
    if high == 0 || 128 <= high {
        return Err(Refusal::Number);
    }
    Ok(Number {
        value: u16::from(low % 128) + 128 * u16::from(high),
        next: second + 1,
    })
}

// The same where an event's kind has that operand, else 0 and the same place: `event_of` does not look at it then, so it is no Option.
#[tactic(auto, unfolding(crate::specs::Numbers::operand_at))]
pub fn operand_at(input: &[u8], wanted: bool, at: usize) -> Result<Number, Refusal>
    ensures { result ≡ operand_at input.now wanted at }
{
    if wanted {
        return number_at(input, at);
    }
    Ok(Number { value: 0, next: at })
}
