// The contexts that are being read: up to eight numbers each, in rows of the cells that lie behind the open operations.
#![tactic(auto)]

ghost use Rattle.std.specs.Prelude.{◌≡◌, ◌≤◌, ◌<◌, ◌==◌, not};
ghost use Rattle.lists.specs.{list_of, all_of};
ghost use Rattle.contexts.specs.{context_of, place_of, size_of, numbers_of, kept_at, is_count, is_object, are_objects, are_different, is_context, empty_at, is_naming};
ghost use Rattle.contexts.specs.{row_cell, size_at, number_at, context_at, found_row, holding, freeing};

use limits::{CONTEXT_LEAST, CONTEXT_MOST, CONTEXTS, OBJECTS};
use operations::CELLS;

// How many numbers, and the numbers: the objects of a read until it is answered, and their values then.
// By hand: in place of a count and an array the nine fields stand, since the definitions and theorems over `context n a b c d e f g h` (contexts/specs, protocol/specs, linearizability) name each.
#[repr(C)]
#[derive(Clone, Copy)]
pub struct Context {
    pub count: u32,
    pub first: u32,
    pub second: u32,
    pub third: u32,
    pub fourth: u32,
    pub fifth: u32,
    pub sixth: u32,
    pub seventh: u32,
    pub eighth: u32,
}

// How many objects a step names, and the objects, in the width that its record gives them; 0 behind the last.
// By hand: the nine fields of a `Context`, which `context_of` and `is_naming` of contexts/specs name one by one.
#[derive(Clone, Copy)]
pub struct Objects {
    pub count: u32,
    pub first: u16,
    pub second: u16,
    pub third: u16,
    pub fourth: u16,
    pub fifth: u16,
    pub sixth: u16,
    pub seventh: u16,
    pub eighth: u16,
}

// ---- a context

// The number at a place, 0 behind the eighth.
pub fn place(v: Context, i: usize) -> u32
    ensures { result ≡ place_of v i }
{
    [
        v.first, v.second, v.third, v.fourth, v.fifth, v.sixth, v.seventh, v.eighth,
    ]
    .get(i)
    .copied()
    .unwrap_or(0)
}

// How many numbers it has.
pub fn size(v: Context) -> usize
    ensures { (result ≡ size_of v) × (result ≤ 8) }
{
    v.count.min(CONTEXT_MOST) as usize
}

// What stands at place i of n numbers: nothing behind the last.
pub fn kept(n: u32, i: u32, x: u32) -> u32
    ensures { result ≡ kept_at n i x }
{
    if i < n { x } else { 0 }
}

pub fn is_count(n: u32) -> bool
    ensures { result ≡ is_count n }
{
    CONTEXT_LEAST <= n && n <= CONTEXT_MOST
}

fn is_object(x: u32) -> bool
    ensures { result ≡ is_object x }
{
    (x as usize) < OBJECTS
}

// Whether no object is above 1,023.
pub fn are_objects(v: Context) -> bool
    ensures { result ≡ are_objects v }
{
    (0..size(v)).all(|i| is_object(place(v, i)))
}

// Whether the number at a place stands at none before it.
fn stands_first(v: Context, i: usize) -> bool
    ensures { result ≡ all_of (λ q. not (q == place_of v i)) (list_of (place_of v) i) }
{
    let x = place(v, i);
    (0..i).all(|k| place(v, k) != x)
}

// Whether no number stands twice.
pub fn are_different(v: Context) -> bool
    ensures { result ≡ are_different v }
{
    (0..size(v)).all(|i| stands_first(v, i))
}

pub fn is_context(v: Context) -> bool
    ensures { result ≡ is_context v }
{
    is_count(v.count) && are_objects(v)
}

// ---- the objects that a step names

pub fn context_of(x: Objects) -> Context
    ensures { result ≡ context_of x }
{
    Context {
        count: x.count,
        first: u32::from(x.first),
        second: u32::from(x.second),
        third: u32::from(x.third),
        fourth: u32::from(x.fourth),
        fifth: u32::from(x.fifth),
        sixth: u32::from(x.sixth),
        seventh: u32::from(x.seventh),
        eighth: u32::from(x.eighth),
    }
}

fn is_empty(n: u32, i: u32, x: u16) -> bool
    ensures { result ≡ empty_at n i x }
{
    i < n || x == 0
}

// Whether 2 to 8 objects are named, and nothing behind them.
pub fn is_naming(x: Objects) -> bool
    ensures { result ≡ is_naming x }
{
    let n = x.count;
    is_count(n)
        && is_empty(n, 2, x.third)
        && is_empty(n, 3, x.fourth)
        && is_empty(n, 4, x.fifth)
        && is_empty(n, 5, x.sixth)
        && is_empty(n, 6, x.seventh)
        && is_empty(n, 7, x.eighth)
}

// ---- the rows

fn row_cell(r: u32) -> usize
    ensures { (result ≡ row_cell r) × (result ≤ 633) }
{
    operations::CONTEXTS + (r % CONTEXTS) as usize * 9
}

fn size_at(cells: &[u32; CELLS], r: u32) -> u32
    ensures { result ≡ size_at cells.now r }
{
    cells[row_cell(r)]
}

fn number_at(cells: &[u32; CELLS], r: u32, i: u32) -> u32
    requires { i < 8 }
    ensures { result ≡ number_at cells.now r i }
{
    let at = row_cell(r) + 1 + i as usize;
    kept(size_at(cells, r), i, cells[at])
}

// The context in a row.
pub fn load(cells: &[u32; CELLS], r: u32) -> Context
    ensures { result ≡ context_at cells.now r }
{
    Context {
        count: size_at(cells, r),
        first: number_at(cells, r, 0),
        second: number_at(cells, r, 1),
        third: number_at(cells, r, 2),
        fourth: number_at(cells, r, 3),
        fifth: number_at(cells, r, 4),
        sixth: number_at(cells, r, 5),
        seventh: number_at(cells, r, 6),
        eighth: number_at(cells, r, 7),
    }
}

// The first free row, where one is.
pub fn free_row(cells: &[u32; CELLS]) -> Option<u32>
    ensures { result ≡ found_row cells.now }
{
    (0..CONTEXTS).find(|r| size_at(cells, *r) == 0)
}

// The row holds a context.
pub fn hold(cells: &mut [u32; CELLS], r: u32, v: Context)
    ensures { cells.new ≡ holding cells.old r v }
{
    let i = row_cell(r);
    cells[i] = v.count;
    cells[i + 1] = v.first;
    cells[i + 2] = v.second;
    cells[i + 3] = v.third;
    cells[i + 4] = v.fourth;
    cells[i + 5] = v.fifth;
    cells[i + 6] = v.sixth;
    cells[i + 7] = v.seventh;
    cells[i + 8] = v.eighth;
}

// The row is free.
pub fn free(cells: &mut [u32; CELLS], r: u32)
    ensures { cells.new ≡ freeing cells.old r }
{
    cells[row_cell(r)] = 0;
}
