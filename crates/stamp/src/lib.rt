// Stamps: sequence numbers, compared by switch number and then by counter. Held as one number, they are compared by one test.
#![tactic(auto)]

ghost use Rattle.std.specs.Prelude.{◌≡◌, get_or, set};
ghost use Rattle.stamp.specs.Stamps.{stamp_of, number_of, counter_of, is_above, larger_of, stamp_in, set_stamp};

use limits::{COUNTERS, Counter, Number, Stamp};

pub fn make(number: Number, counter: Counter) -> Stamp
    ensures { result ≡ stamp_of number counter }
{
    joined(u32::from(number), counter)
}

// The stamp that two cells hold, its switch number's half first; whatever they hold, all that stands above the counter is the switch number.
pub fn joined(upper: u32, lower: u32) -> Stamp
    ensures { result ≡ stamp_of upper lower }
{
    Stamp::from(upper) * COUNTERS + Stamp::from(lower)
}

// Its halves.
pub fn upper(t: Stamp) -> u32
    ensures { result ≡ number_of t }
{
    (t / COUNTERS) as u32
}

pub fn lower(t: Stamp) -> u32
    ensures { result ≡ counter_of t }
{
    (t % COUNTERS) as u32
}

pub fn above(a: Stamp, b: Stamp) -> bool
    ensures { result ≡ is_above a b }
{
    a > b
}

pub fn larger(a: Stamp, b: Stamp) -> Stamp
    ensures { result ≡ larger_of a b }
{
    a.max(b)
}

// ---- a stamp in two neighbouring cells, its switch number's half first; past the end a cell reads as 0 and takes nothing

fn cell<const N: usize>(cells: &[u32; N], at: usize) -> u32
    ensures { result ≡ get_or cells.now at 0 }
{
    cells.get(at).copied().unwrap_or(0)
}

fn put<const N: usize>(cells: &mut [u32; N], at: usize, x: u32)
    ensures { cells.new ≡ set cells.old at x }
{
    if at < N {
        cells[at] = x;
    }
}

pub fn read<const N: usize>(cells: &[u32; N], at: usize) -> Stamp
    ensures { result ≡ stamp_in cells.now at }
{
    if N <= at {
        return 0;
    }
    joined(cell(cells, at), cell(cells, at + 1))
}

pub fn write<const N: usize>(cells: &mut [u32; N], at: usize, t: Stamp)
    ensures { cells.new ≡ set_stamp cells.old at t }
{
    if at < N {
        put(cells, at, upper(t));
        put(cells, at + 1, lower(t));
    }
}
