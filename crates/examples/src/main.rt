// Tries the stored examples: `index` names them, NAME.records is run, and NAME.lines is what another model prints for it. The listing is also run cut at each of
// its bytes, against listing-cuts.lines. Names of examples that differ are printed, and last how many were tried and how many differ.
#![tactic(auto)]

use std::alloc::{AllocError, Global};
use std::io;
use std::rt::Files;

// Room for the names of the examples.
const NAMES: usize = 65536;

// Room for the lines of any input: `printed_short`, crates/runs/proofs/Whole.antt.
fn output_room(alloc: Global) -> Result<Vec<u8>, AllocError> {
    vec![in alloc; 0; 3276800]
}

fn say(rt: &impl Print, name: &[u8]) -> io::Result<()> {
    rt.write_all(name)?;
    rt.println(" differs")
}

// Tries the example, says its name where it differs, and answers the number of examples that differ.
fn count_differing(
    rt: &(impl Files + Print),
    name: &[u8],
    differ: u32,
    input: &mut [u8],
    expected: &mut [u8],
    out: &mut [u8],
) -> io::Result<u32> {
    if agreement::agrees(rt, name, input, expected, out)? {
        return Ok(differ);
    }
    say(rt, name)?;
    Ok(differ.saturating_add(1))
}

fn report(rt: &impl Print, tried: u32, differ: u32) -> io::Result<()> {
    println!(rt; "{tried} examples, {differ} differ")
}

// The examples that the index names, one to a line.
fn try_named(
    rt: &(impl Files + Print),
    index: &[u8],
    input: &mut [u8],
    expected: &mut [u8],
    out: &mut [u8],
) -> io::Result<()> {
    let mut tried: u32 = 0;
    let mut differ = 0;
    for line in index.split_inclusive(|b| *b == b'\n') {
        let name = line.strip_suffix(b"\n").unwrap_or(line);
        differ = count_differing(rt, name, differ, input, expected, out)?;
        tried = tried.saturating_add(1);
    }
    report(rt, tried, differ)
}

fn try_cuts(
    rt: &(impl Files + Print),
    input: &mut [u8],
    expected: &mut [u8],
    out: &mut [u8],
) -> io::Result<()> {
    let n = agreement::read_named(rt, b"listing", b".records", input)?;
    let m = agreement::read_named(rt, b"listing-cuts", b".lines", expected)?;
    if agreement::cuts_agree(&input[..n], &expected[..m], out) {
        return rt.println("the listing cut at each byte agrees");
    }
    say(rt, b"the listing cut at each byte")
}

fn main(rt: HostRuntime) -> io::Result<()> {
    let mut input = runs::input_room();
    let mut expected = output_room(rt.alloc())?;
    let mut out = output_room(rt.alloc())?;
    let mut names = [0; NAMES];
    let n = agreement::read_named(&rt, b"index", b"", &mut names)?;
    try_named(&rt, &names[..n], &mut input, &mut expected, &mut out)?;
    try_cuts(&rt, &mut input, &mut expected, &mut out)
}
