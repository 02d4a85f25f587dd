// The text of a line, put into a buffer at a place; each function gives the place after what it put. The buffer and the place stay
// two parameters: a struct that held the borrow would need a clause for how it comes back in every contract.
#![tactic(auto)]

ghost use Rattle.std.specs.Prelude.{◌+◌, ◌≤◌, length};
ghost use Rattle.text.specs.Text.{decimal, line_with, Puts};

// The code of the digit 0.
const ZERO: u8 = 48;

const LINE_FEED: u8 = 10;

#[tactic(auto, using(crate::proofs::Stores::puts_copy))]
fn put_text(out: &mut [u8], at: usize, text: &[u8]) -> usize
    requires { at + length text.now ≤ length out.old }
    ensures { Puts out.old at text.now out.new result }
{
    let end = at + text.len();
    out[at..end].copy_from_slice(text);
    end
}

// By recursion: the kit's `itoa` puts the same digits into a buffer of its own, from which they are copied, and is no plainer.
#[tactic(auto, using(crate::specs::Laws::one_digit, crate::specs::Laws::digits_more, crate::proofs::Digits::puts_digit, crate::proofs::Digits::puts_digits))]
fn put_number(out: &mut [u8], at: usize, number: u32) -> usize
    requires { at + length (decimal number) ≤ length out.old }
    ensures { Puts out.old at (decimal number) out.new result }
{
    if number < 10 {
        out[at] = ZERO + number as u8;
        return at + 1;
    }
    let last = put_number(out, at, number / 10);
    out[last] = ZERO + (number % 10) as u8;
    last + 1
}

// An index, a word between spaces, a number and a line feed, put into a buffer that has room for them.
#[tactic(auto, using(crate::specs::Laws::line_length, crate::proofs::Lines::puts_line))]
pub fn put_line(out: &mut [u8], at: usize, index: u32, word: &[u8], number: u32) -> usize
    requires { at + length (line_with index word.now number) ≤ length out.old }
    ensures { Puts out.old at (line_with index word.now number) out.new result }
{
    let indexed = put_number(out, at, index);
    let worded = put_text(out, indexed, word);
    let numbered = put_number(out, worded, number);
    out[numbered] = LINE_FEED;
    numbered + 1
}
