// How far a run is, its next step, and a buffer filled with its next lines.
ghost use Rattle.std.specs.Prelude.{◌≡◌, ◌++◌, ◌+◌, ◌/◌, ◌≤◌, length, drop, Err};
ghost use Rattle.text.specs.Text.{Puts};
ghost use Rattle.device.specs.Device.{answered_of};
ghost use Rattle.run.specs.Cursor.{WellFormed, new_cursor, ended_at, going_on, progress_of, text_said, text_in, filled_by};

use crate::line::put_answer;
use device::{Answer, Device, Outcome};
use event::Refusal;
use file::{Reading, read_at};

// The bytes of the longest line.
const LINE: usize = 16;

// The device after the events so far, the place and the index of the next, and whether the run is over. Its bounds are a clause
// (`WellFormed`) and no type: `cursor_after` and the theorems over it speak of the steps of any cursor.
#[derive(Clone, Copy)]
pub struct Cursor {
    pub device: Device,
    pub place: usize,
    pub index: u32,
    pub over: bool,
}

// The cursor after a step, and what the step says: an answer under the cursor's index before it, or nothing.
#[derive(Clone, Copy)]
struct Progress {
    cursor: Cursor,
    said: Option<Answer>,
}

// The cursor after the lines that were put into a buffer, and how many bytes they are: the buffer is lent, and memory is fixed.
#[derive(Clone, Copy)]
pub struct Filled {
    pub cursor: Cursor,
    pub count: usize,
}

#[tactic(auto, unfolding(crate::specs::Cursor::text_said))]
fn put_said(out: &mut [u8], at: usize, index: u32, said: Option<Answer>) -> usize
    requires { (index ≤ 65536) × (at + 16 ≤ length out.old) }
    ensures text { Puts out.old at (text_said index said) out.new result }
    ensures within { result ≤ at + 16 }
{
    match said {
        Some(answer) => put_answer(out, at, index, answer),
        None => at,
    }
}

impl Cursor {
    #[tactic(auto, unfolding(crate::specs::Cursor::new_cursor))]
    pub fn new() -> Cursor
        ensures { result ≡ new_cursor }
    {
        Cursor {
            device: Device::new(),
            place: 0,
            index: 0,
            over: false,
        }
    }

    // The run over, with what is said last.
    fn ended(self, said: Option<Answer>) -> Progress
        ensures { result ≡ record { cursor = ended_at self; said = said } }
    {
        Progress {
            cursor: Cursor { over: true, ..self },
            said,
        }
    }

    // After an event that ends before a place and comes to an outcome.
    fn going_on(self, next: usize, outcome: Outcome) -> Progress
        requires { WellFormed self }
        ensures { result ≡ going_on self next outcome }
    {
        Progress {
            cursor: Cursor {
                device: outcome.device,
                place: next,
                index: self.index + 1,
                over: false,
            },
            said: Some(outcome.answer),
        }
    }

    // The same of a refused event, which leaves the device as it was.
    #[tactic(auto, unfolding(device::specs::Device::answered_of))]
    fn passed_over(self, refusal: Refusal, next: usize) -> Progress
        requires { WellFormed self }
        ensures { result ≡ going_on self next (answered_of self.device (Err refusal)) }
    {
        let unchanged = Outcome {
            device: self.device,
            answer: Err(refusal),
        };
        self.going_on(next, unchanged)
    }

    // One event read and answered.
    #[tactic(auto, using(crate::proofs::Laws::read_judged), unfolding(crate::specs::Cursor::progress_of))]
    fn proceed(self, input: &[u8]) -> Progress
        requires { WellFormed self }
        ensures { result ≡ progress_of input.now self }
    {
        if self.over {
            return Progress {
                cursor: self,
                said: None,
            };
        }
        match read_at(input, self.place) {
            Ok(Some(Reading { event, next })) => match event {
                Ok(event) => self.going_on(next, self.device.step(event)),
                Err(refusal) => self.passed_over(refusal, next),
            },
            Ok(None) => self.ended(None),
            Err(refusal) => self.ended(Some(Err(refusal))),
        }
    }

    // The next lines put at the start of a buffer, one for each sixteen bytes of it where the run has so many left.
    pub fn fill(self, input: &[u8], out: &mut [u8]) -> Filled
        requires { WellFormed self }
        ensures value { result ≡ filled_by (length out.old / 16) input.now self }
        ensures out_after { out.new ≡ text_in (length out.old / 16) input.now self ++ drop result.count out.old }
    {
        let mut cursor = self;
        let mut count = 0;
        for _ in 0..out.len() / LINE {
            if cursor.over {
                return Filled { cursor, count };
            }
            let progress = cursor.proceed(input);
            count = put_said(out, count, cursor.index, progress.said);
            cursor = progress.cursor;
        }
        Filled { cursor, count }
    }
}
