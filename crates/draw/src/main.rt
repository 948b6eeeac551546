// The draw program: the records of the run that a seed draws go to standard output. Its words are the seed, the number of replicas and the number of steps, in digits; a
// refusal goes to standard error, and so does the usage where the words are others.
#![tactic(auto)]

use std::env::FillError;
use std::io;
use std::rt::Env;

// A larger number is read as this one, which is above every number that is taken.
const LARGE: u64 = 1000000000000;

// Room for a word of the command. A longer one is read as no number.
const WORD: usize = 4096;

// Room for the records of any run that is drawn.
const ROOM: usize = 65536;

// The number that digits alone show; one above LARGE is read as LARGE.
fn number(text: &[u8]) -> Option<u64> {
    if text.is_empty() || !text.iter().all(|b| b.is_ascii_digit()) {
        return None;
    }
    Some(
        text.iter().fold(0, |n: u64, b| {
            n.saturating_mul(10)
                .saturating_add(u64::from(b.saturating_sub(b'0')))
                .min(LARGE)
        }),
    )
}

fn read_word(rt: &impl Env, i: usize) -> Option<u64> {
    let mut text = [0; WORD];
    let n = rt.arg(i, &mut text).unwrap_or(0);
    number(&text[..n])
}

// Whether the command has a word at a place, whatever its length. The program's own name is at 0.
fn has_word(rt: &impl Env, i: usize) -> bool {
    !matches!(rt.arg(i, &mut []), Err(FillError::NotPresent))
}

fn has_three_words(rt: &impl Env) -> bool {
    has_word(rt, 3) && !has_word(rt, 4)
}

fn usage(rt: &impl Eprint) -> io::Result<()> {
    rt.eprintln("usage: draw SEED N STEPS")
}

fn draw(rt: &(impl Print + Eprint), seed: u32, n: u64, steps: u64) -> io::Result<()> {
    let mut out = [0; ROOM];
    match draws::run(seed, n, steps, &mut out) {
        Ok(size) => rt.write_all(&out[..size]),
        Err(error) => eprintln!(rt; "no {}", error.number()),
    }
}

fn main(rt: HostRuntime) -> io::Result<()> {
    if !has_three_words(&rt) {
        return usage(&rt);
    }
    let words = (read_word(&rt, 1), read_word(&rt, 2), read_word(&rt, 3));
    let (Some(seed), Some(n), Some(steps)) = words else {
        return usage(&rt);
    };
    let Ok(seed) = u32::try_from(seed) else {
        return usage(&rt);
    };
    draw(&rt, seed, n, steps)
}
