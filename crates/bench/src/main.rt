// Runs the events of standard input on a new device, and prints a line for each answer.
#![tactic(auto)]

ghost use Rattle.std.specs.Prelude.{◌≡◌, ◌≤◌, length, take, IfOk};
ghost use Rattle.run.specs.Cursor.{WellFormed, cursor_after};
ghost use Rattle.bench.specs.Program.{Within};

use run::Cursor;
use std::io;
use std::io::{Read, Stdin, Stdout, Write};

// The bytes taken at most: one more than an input may have, so that too long an input is told from the longest. The program's buffers
// are of a fixed size, and what stands in them is passed on as a slice.
const TAKEN: usize = 65537;

// One read into the buffer from a place on: what stood before it stays. Of the bytes that come, `read` says nothing.
fn read_from(stdin: &mut Stdin, buffer: &mut [u8], at: usize) -> io::Result<usize>
    requires { at ≤ length buffer.old }
    ensures within { Within at (length buffer.old) result }
    ensures buffer_unchanged { take at buffer.new ≡ take at buffer.old }
{
    stdin.read(&mut buffer[at..])
}

// Reads until the buffer is full or the input ends, each time from where the last read ended, so that none is overwritten.
// What came before a read that fails is no whole input, and is not run. The count goes on by what came, so it is no index of a `for`.
fn read_input(stdin: &mut Stdin, buffer: &mut [u8]) -> io::Result<usize>
    ensures { Within 0 (length buffer.old) result }
{
    let mut count = 0;
    while count < buffer.len() {
        let got = read_from(stdin, buffer, count)?;
        if got == 0 {
            break;
        }
        count += got;
    }
    Ok(count)
}

// Writes the next lines.
#[tactic(auto, unfolding(run::specs::Cursor::filled_by))]
fn write_next(stdout: &mut Stdout, input: &[u8], cursor: Cursor) -> io::Result<Cursor>
    requires { WellFormed cursor }
    ensures { IfOk result (λ next. next ≡ cursor_after 4096 input.now cursor) }
{
    let mut out = [0u8; 65536];
    let filled = cursor.fill(input, &mut out);
    stdout.write_all(&out[..filled.count])?;
    Ok(filled.cursor)
}

// Where a write fails nothing more is written. What was taken before may end inside a line; only a line that ends in a
// line feed is an answer.
fn write_answers(stdout: &mut Stdout, input: &[u8]) -> io::Result<()> {
    let mut cursor = Cursor::new();
    while !cursor.over {
        cursor = write_next(stdout, input, cursor)?;
    }
    Ok(())
}

// A read or a write that fails ends the program, with nothing told of it.
fn main(rt: HostRuntime) {
    let mut buffer = [0u8; TAKEN];
    if let Ok(count) = read_input(&mut rt.stdin(), &mut buffer) {
        let _ = write_answers(&mut rt.stdout(), &buffer[..count]);
    }
}
