// What the programs share that hold a call to a table or a recording: how lines are read, how what differs from a line is printed and
// counted, and the bytes with which a buffer is filled.
#![tactic(auto)]

pub mod case;
pub mod counts;
pub mod lines;
pub mod mnemonics;
pub mod part;
pub mod recording;
pub mod tally;

ghost use Rattle.std.specs.Prelude.{◌<◌, ◌≤◌, length, IfOk};

use std::io;
use std::io::Read;

// Reads until the buffer is full or the input ends, and answers how many bytes it put at the buffer's start. A `while`, since only a read
// says how far it came, and the library's read_exact does not say where the input ended.
pub fn read_full<R: Read>(from: &mut R, buffer: &mut [u8]) -> io::Result<usize>
    ensures { IfOk result (λ n. n ≤ length buffer.new) }
{
    let mut done = 0;
    while done < buffer.len() {
        let n = from.read(&mut buffer[done..])?;
        if n == 0 {
            break;
        }
        done += n;
    }
    Ok(done)
}

// Byte i of a buffer that a case does not fill itself: no byte is zero, and bytes near to one another differ.
pub fn pattern(i: usize) -> u8 {
    ((i % 251 * 31 + 7) % 251 + 1) as u8
}

// Fills a buffer with the byte that belongs at each place.
pub fn fill_with<F: Fn(usize) -> u8>(buffer: &mut [u8], byte: F)
    requires { F.IsAlwaysCallable byte }
{
    for (i, b) in buffer.iter_mut().enumerate() {
        *b = byte(i);
    }
}
