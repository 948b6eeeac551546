// The shorten program: reads records from standard input, and writes a shorter run whose last record is refused with the same number to standard output; a refusal goes to
// standard error.
#![tactic(auto)]

use std::io;

// Room for the records of any input that is shortened.
const ROOM: usize = 65536;

fn shorten(rt: &(impl Print + Eprint), input: &[u8]) -> io::Result<()> {
    let mut out = [0; ROOM];
    match shortening::shorten(input, &mut out) {
        Ok(size) => rt.write_all(&out[..size]),
        Err(error) => eprintln!(rt; "no {}", error.number()),
    }
}

fn main(rt: HostRuntime) -> io::Result<()> {
    let mut input = runs::input_room();
    let length = reading::read_full(&mut rt.reader(), &mut input)?;
    shorten(&rt, &input[..length])
}
