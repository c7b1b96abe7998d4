// The listing program (section 10 of docs/SPECIFICATION.md): reads standard input, one byte with the rounds and a stored mesh, and prints the
// refined mesh or the refusal. What is printed is what `lines::lines` promises; this file only reads and writes.
#![tactic(auto)]

ghost use Rattle.std.specs.Prelude.{◌≤◌, length, IfOk};

use lines::{LIMIT, OUTPUT_SIZE};
use std::io::{self, Input, Print, Read};

// One byte more than the program takes, so that a longer input shows.
const INPUT_SIZE: usize = LIMIT + 1;

// Reads until the input ends or the buffer is full: how many bytes it read. A turn reads as much as the reader gives: no `for` can count them.
fn read_full<R: Read>(reader: &mut R, buffer: &mut [u8]) -> io::Result<usize>
    ensures { IfOk result (λ n. n ≤ length buffer.old) }
{
    let mut n = 0;
    while n < buffer.len() {
        let more = reader.read(&mut buffer[n..])?;
        if more == 0 {
            break;
        }
        n += more;
    }
    Ok(n)
}

fn main(rt: HostRuntime) -> io::Result<()> {
    let mut input = [0u8; INPUT_SIZE];
    // `lines` answers a slice of any length, so no type holds that there is room for that byte: without it a longer input is taken for a whole one.
    prove!(LIMIT < input.len());
    let n = read_full(&mut rt.reader(), &mut input)?;
    let mut out = [0u8; OUTPUT_SIZE];
    let count = lines::lines(&input[..n], &mut out);
    rt.write_all(&out[..count])
}
