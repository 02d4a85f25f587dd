// The line of an answer, put into a buffer at a place.
ghost use Rattle.std.specs.Prelude.{◌≡◌, ◌+◌, ◌≤◌, length};
ghost use Rattle.text.specs.Text.{Puts};
ghost use Rattle.run.specs.Lines.{line_of};

use device::Answer;
use text::put_line;

// No index is above 65,536 and no reply above 65,535, so that a line takes 16 bytes at most.
#[tactic(auto, using(crate::proofs::Laws::okay_length, crate::proofs::Laws::refused_length), unfolding(crate::specs::Lines::line_of))]
pub fn put_answer(out: &mut [u8], at: usize, index: u32, answer: Answer) -> usize
    requires { (index ≤ 65536) × (at + 16 ≤ length out.old) }
    ensures text { Puts out.old at (line_of index answer) out.new result }
    ensures within { result ≤ at + 16 }
{
    match answer {
        Ok(reply) => put_line(out, at, index, b" OK ", u32::from(reply)),
        Err(refusal) => put_line(out, at, index, b" REFUSED ", u32::from(refusal.number())),
    }
}
