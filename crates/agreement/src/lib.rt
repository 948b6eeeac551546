// Whether the model prints for a stored example what another model prints for it.
#![tactic(auto)]

ghost use Rattle.std.specs.Prelude.{◌≡◌, false, cond, ℕ, ◌+◌, ◌<◌, ◌≤◌, min, ltb, length, take, IfOk};
ghost use Rattle.runs.specs.Runs.{printed};
ghost use Rattle.reading.specs.{IsPrefixLen};
ghost use Rattle.agreement.specs.{stands_in, same_bytes, output_room, outputs_of};

use std::fs::File;
use std::rt::Files;
use std::{io, str};

// Room for the output of any input.
const OUTPUT_ROOM: usize = 3276800;

// Whether the bytes of `part` stand in `s` from a place on.
fn stands_at(s: &[u8], at: usize, part: &[u8]) -> bool
    ensures { result ≡ stands_in s.now at part.now }
{
    if s.len() < at {
        return false;
    }
    if s.len() - at < part.len() {
        return false;
    }
    for i in 0..part.len() {
        if s[at + i] != part[i] {
            return false;
        }
    }
    true
}

fn same(a: &[u8], b: &[u8]) -> bool
    ensures { result ≡ same_bytes a.now b.now }
{
    a.len() == b.len() && stands_at(a, 0, b)
}

// By hand: a place beside the buffer, since callers lend the memory.
// The bytes go into the buffer from a place on, as many as have room. The place after them.
fn append(buf: &mut [u8], at: usize, from: &[u8]) -> usize
    requires { at ≤ length buf.old }
    ensures { IsPrefixLen result buf.new }
{
    let n = from.len().min(buf.len() - at);
    let end = at + n;
    buf[at..end].copy_from_slice(&from[..n]);
    end
}

// Reads a file, as far as the buffer has room; nothing where it cannot be opened. How many bytes were read. A path is text.
fn read_path(rt: &impl Files, path: &[u8], buf: &mut [u8]) -> io::Result<usize>
    ensures { IfOk result (λ n. IsPrefixLen n buf.new) }
{
    let Ok(path) = str::from_utf8(path) else {
        return Ok(0);
    };
    let Ok(mut file) = File::open(rt, path) else {
        return Ok(0);
    };
    reading::read_full(&mut file, buf)
}

// Reads the file NAME.SUFFIX, as far as the buffer has room; nothing where there is none. How many bytes were read. An error is one of reading.
pub fn read_named(rt: &impl Files, name: &[u8], suffix: &[u8], buf: &mut [u8]) -> io::Result<usize>
    ensures read { IfOk result (λ n. IsPrefixLen n buf.new) }
    ensures room { length buf.new ≡ length buf.old }
{
    let mut path = [0; 4096];
    let dot = append(&mut path, 0, name);
    let end = append(&mut path, dot, suffix);
    read_path(rt, &path[..end], buf)
}

// By hand: the room is asked of three private functions. A type for a buffer with room would be made in two places and lent on as a slice in the third.
// The output of an input, at the start of a buffer that has room for any. How many bytes it has.
fn print(input: &[u8], out: &mut [u8]) -> usize
    requires { output_room ≤ length out.old }
    ensures { IsPrefixLen result out.new × (take result out.new ≡ printed input.now) }
{
    runs::print(input, out)
}

fn agrees_with_room(
    rt: &impl Files,
    name: &[u8],
    input: &mut [u8],
    expected: &mut [u8],
    out: &mut [u8],
) -> io::Result<bool>
    requires { output_room ≤ length out.old }
    ensures { IfOk result (λ r. (n : ℕ) × (m : ℕ) × (r ≡ same_bytes (printed (take n input.new)) (take m expected.new))) }
{
    let n = read_named(rt, name, b".records", input)?;
    let m = read_named(rt, name, b".lines", expected)?;
    let used = print(&input[..n], out);
    Ok(same(&out[..used], &expected[..m]))
}

// Whether the model prints for the example what is expected: its records and its lines are read from two files, into the front of two buffers. No where the third has not
// room for any output. An error is one of reading.
pub fn agrees(
    rt: &impl Files,
    name: &[u8],
    input: &mut [u8],
    expected: &mut [u8],
    out: &mut [u8],
) -> io::Result<bool>
    ensures answer { IfOk result (λ r. (n : ℕ) × (m : ℕ) × (r ≡ cond (ltb (length out.old) output_room) false (same_bytes (printed (take n input.new)) (take m expected.new)))) }
    ensures short { length out.old < output_room → result ≡ Ok false }
    ensures room { (length input.new ≡ length input.old) × (length expected.new ≡ length expected.old) × (length out.new ≡ length out.old) }
{
    if out.len() < OUTPUT_ROOM {
        return Ok(false); // and no file is read
    }
    agrees_with_room(rt, name, input, expected, out)
}

// The place after n bytes, or the end.
pub fn after(s: &[u8], at: usize, n: usize) -> usize
    ensures { result ≡ min (at + n) (length s.now) }
{
    at.saturating_add(n).min(s.len())
}

fn cuts_agree_with_room(input: &[u8], expected: &[u8], out: &mut [u8]) -> bool
    requires { output_room ≤ length out.old }
    ensures { result ≡ same_bytes expected.now (outputs_of input.now) }
{
    let mut at = 0;
    for cut in 0..input.len() + 1 {
        let used = print(&input[..cut], out);
        if !stands_at(expected, at, &out[..used]) {
            return false;
        }
        at = after(expected, at, used);
    }
    at == expected.len()
}

// Whether the model prints for the input, cut at each of its bytes in turn, what is expected, one output after the other. No where the buffer has not room for any output.
pub fn cuts_agree(input: &[u8], expected: &[u8], out: &mut [u8]) -> bool
    ensures { result ≡ cond (ltb (length out.old) output_room) false (same_bytes expected.now (outputs_of input.now)) }
{
    OUTPUT_ROOM <= out.len() && cuts_agree_with_room(input, expected, out)
}
