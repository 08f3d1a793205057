// Reading, such that a read that fails is told from the end of the input.
ghost use Rattle.std.specs.Prelude.{IfOk, ◌≤◌, length};

use std::io::{Read, Result};

// Reads until the buffer is full or the input ends, and answers how many bytes stand at its start.
// Not std's `read_exact`, for which an end before the buffer is full is an error.
pub fn read_all<R: Read>(input: &mut R, buf: &mut [u8]) -> Result<usize>
    ensures { IfOk result (λ n. n ≤ length buf.new) }
{
    let mut done = 0;
    // each read says how many bytes it brought: no range counts these
    while done < buf.len() {
        let n = input.read(&mut buf[done..])?;
        if n == 0 {
            break;
        }
        done += n;
    }
    Ok(done)
}
