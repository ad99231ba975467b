ghost use Rattle.std.specs.Prelude.{◌≤◌, length, IfOk};

use std::io;
use std::io::Read;

// Bytes of input that decide every answer: one more than the longest accepted file has, which is 5 for the head, 13 for
// each of 16 actors and 11 for each of 32 channels.
pub const ENOUGH: usize = 566;

// Fills the buffer from the input as far as there is any, and answers how much.
pub fn fill(from: &mut impl Read, buffer: &mut [u8]) -> io::Result<usize>
    ensures { IfOk result (λ n. n ≤ length buffer.old) }
{
    // By index: read_exact refuses an input that ends early, and read_to_end needs a Vec.
    let mut used = 0;
    while used < buffer.len() {
        let n = from.read(&mut buffer[used..])?;
        if n == 0 {
            break;
        }
        used += n;
    }
    Ok(used)
}
