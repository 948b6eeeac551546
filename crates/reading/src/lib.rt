// Reading what a reader has, as far as a buffer has room.
#![tactic(auto)]

ghost use Rattle.std.specs.Prelude.{IfOk};
ghost use Rattle.reading.specs.{IsPrefixLen};

use std::io;
use std::io::Read;

// By hand: a loop of its own, since only the reader knows how many turns it takes.
// Reads until the buffer is full or there is no more. How many bytes were read. An error is one of reading.
pub fn read_full(from: &mut impl Read, buf: &mut [u8]) -> io::Result<usize>
    ensures { IfOk result (λ n. IsPrefixLen n buf.new) }
{
    let mut done = 0;
    while done < buf.len() {
        let n = from.read(&mut buf[done..])?;
        if n == 0 {
            return Ok(done);
        }
        done += n;
    }
    Ok(done)
}
