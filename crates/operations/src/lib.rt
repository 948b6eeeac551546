// The open operations: their numbers in cells that the caller lends, without a gap, how many they are, and the last number given.
#![tactic(auto)]

ghost use Rattle.std.specs.Prelude.{◌≡◌, ◌≤◌, ◌<◌};
ghost use Rattle.operations.specs.Search.{weight_at, weighed, IsPlace};
ghost use Rattle.operations.specs.{open_count, last_given, none_open, open_place, is_open, room_to_open, opening, closing};

use limits::{OPEN, Operation};

// Where the number of the open operations and the last number given lie: specs/Lib.antt has the same places.
// By hand: cells with a count beside them, and no list type, as callers lend the memory: a rule of the project (fixed memory, no heap).
pub const COUNT: usize = 64;

pub const LAST: usize = 65;

// Behind them lie the contexts of crates/contexts: 64 rows of nine cells.
pub const CONTEXTS: usize = 66;

pub const CELLS: usize = 642;

// How many operations are open.
pub fn count(cells: &[u32; CELLS]) -> usize
    ensures { (result ≡ open_count cells.now) × (result ≤ 64) }
{
    (cells[COUNT] as usize).min(OPEN)
}

pub fn last(cells: &[u32; CELLS]) -> Operation
    ensures { result ≡ last_given cells.now }
{
    cells[LAST]
}

// ---- the place of an operation

// What a cell adds to the sum over the cells: where it holds the number, 65,536 and its place.
fn weight(cell: u32, o: Operation, i: u32) -> u32
    requires { i < 64 }
    ensures { result ≡ weight_at cell o i }
{
    if cell == o { 65536 + i } else { 0 }
}

// The sum over the cells: 0 where none holds the number, and 65,536 and the place where one does. A loop with no exit in its middle is vector code.
fn weigh(cells: &[u32; CELLS], o: Operation) -> u32
    ensures { result ≡ weighed cells.now o 64 }
{
    let mut sum: u32 = 0;
    for i in 0..64u32 {
        sum += weight(cells[i as usize], o, i);
    }
    sum
}

// The first place of the operation among the open ones.
fn scan(cells: &[u32; CELLS], o: Operation) -> Option<usize>
    ensures { IsPlace (open_place cells.now o) (open_count cells.now) result }
{
    cells[..count(cells)].iter().position(|x| *x == o)
}

// The same. Where more than one cell holds the number, which no run reaches, the cells are gone through one by one.
fn find(cells: &[u32; CELLS], o: Operation) -> Option<usize>
    ensures { IsPlace (open_place cells.now o) (open_count cells.now) result }
{
    let n = count(cells);
    let sum = weigh(cells, o);
    if sum == 0 {
        None
    } else if 131072 <= sum {
        scan(cells, o)
    } else {
        let i = (sum - 65536) as usize;
        if i < n { Some(i) } else { None }
    }
}

pub fn is_open(cells: &[u32; CELLS], o: Operation) -> bool
    ensures { result ≡ is_open cells.now o }
{
    find(cells, o).is_some()
}

pub fn has_room(cells: &[u32; CELLS]) -> bool
    ensures { result ≡ room_to_open cells.now }
{
    count(cells) < OPEN
}

// Opens the operation and notes its number as the last given; unchanged where 64 are open.
pub fn open(cells: &mut [u32; CELLS], o: Operation)
    ensures { cells.new ≡ opening cells.old o }
{
    let n = count(cells);
    if n < OPEN {
        cells[n] = o;
        cells[COUNT] = n as u32 + 1;
        cells[LAST] = o;
    }
}

// Closes the operation, and says whether it was open.
pub fn close(cells: &mut [u32; CELLS], o: Operation) -> bool
    ensures { (result ≡ is_open cells.old o) × (cells.new ≡ closing cells.old o) }
{
    let Some(i) = find(cells, o) else {
        return false;
    };
    let last = count(cells) - 1;
    cells[i] = cells[last];
    cells[last] = 0;
    cells[COUNT] = last as u32;
    true
}

pub fn clear(cells: &mut [u32; CELLS])
    ensures { cells.new ≡ none_open }
{
    *cells = [0; CELLS];
}
