// The store that the caller lends: where each thing lies in it, and how it is read and written.
#![tactic(auto)]

ghost use Rattle.std.specs.Prelude.{◌≡◌, ◌<◌};
ghost use Rattle.store.specs.{row_of, entry_cell, entry_stamp_cell, value_cell, stamp_cell, highest_of, permitted_by, applied_by, entry_at, value_at, stamp_at, logged, tabled, raised, is_quorum};

use limits::{KEPT, OBJECTS, Object, Operation, Position, Stamp, Table, Value};

// Where each thing lies in the store: specs/Lib.antt has the same places.
// By hand: places in one array, and no struct, as callers lend the memory through the C interface, and `stamp_in`, `entry_cell` and the like of the specs say where each number lies.
pub const LIVE: usize = 0;

pub const ORDER: usize = 1;

pub const HIGHEST: usize = 9;

pub const PERMITS: usize = 25;

pub const APPLIED: usize = 33;

pub const ENTRIES: usize = 41;

pub const ENTRY_STAMPS: usize = 425;

pub const VALUES: usize = 681;

pub const STAMPS: usize = 8873;

pub const LAST_NUMBER: usize = 25257;

pub const JOIN: usize = 25258;

// Req 11: the kind of store, 0 for a chain and 1 for a quorum store; how many entries each replica has logged and acknowledged; the kinds of the last items sent.
pub const KIND: usize = 25259;

pub const LOGGED: usize = 25260;

pub const ACKNOWLEDGED: usize = 25268;

pub const ITEMS: usize = 25276;

pub const CELLS: usize = 25340;

// A write of the log, with the stamp that the switch gave it.
#[derive(Clone, Copy)]
pub struct Write {
    pub operation: Operation,
    pub object: Object,
    pub value: Value,
    pub stamp: Stamp,
}

pub fn row(r: Table) -> usize
    ensures { (result ≡ row_of r) × (result < 8) }
{
    usize::from(r % 8)
}

fn value_cell(r: Table, o: Object) -> usize
    ensures { (result ≡ value_cell (row_of r) o) × (result < 8873) }
{
    VALUES + (row(r) * OBJECTS + o as usize % OBJECTS)
}

fn stamp_cell(r: Table, o: Object) -> usize
    ensures { (result ≡ stamp_cell (row_of r) o) × (result < 25256) }
{
    STAMPS + 2 * (row(r) * OBJECTS + o as usize % OBJECTS)
}

fn entry_cell(field: usize, p: Position) -> usize
    requires { field < 3 }
    ensures { (result ≡ entry_cell field p) × (result < 425) }
{
    ENTRIES + field * KEPT + p as usize % KEPT
}

fn entry_stamp_cell(p: Position) -> usize
    ensures { (result ≡ entry_stamp_cell p) × (result < 680) }
{
    ENTRY_STAMPS + 2 * (p as usize % KEPT)
}

// Whether it is a quorum store.
pub fn is_quorum(cells: &[u32; CELLS]) -> bool
    ensures { result ≡ is_quorum cells.now }
{
    cells[KIND] == 1
}

// ---- what each replica keeps

pub fn highest(cells: &[u32; CELLS], r: Table) -> Stamp
    ensures { result ≡ highest_of cells.now r }
{
    stamp::read(cells, HIGHEST + 2 * row(r))
}

// The switch number that it permits, as the cell has it.
pub fn permitted(cells: &[u32; CELLS], r: Table) -> u32
    ensures { result ≡ permitted_by cells.now r }
{
    cells[PERMITS + row(r)]
}

pub fn applied(cells: &[u32; CELLS], r: Table) -> Position
    ensures { result ≡ applied_by cells.now r }
{
    cells[APPLIED + row(r)]
}

pub fn raise(cells: &mut [u32; CELLS], r: Table, highest: Stamp, applied: Position)
    ensures { cells.new ≡ raised cells.old r highest applied }
{
    let i = row(r);
    stamp::write(cells, HIGHEST + 2 * i, highest);
    cells[APPLIED + i] = applied;
}

// ---- tables

pub fn read_value(cells: &[u32; CELLS], r: Table, o: Object) -> Value
    ensures { result ≡ value_at cells.now r o }
{
    cells[value_cell(r, o)]
}

pub fn read_stamp(cells: &[u32; CELLS], r: Table, o: Object) -> Stamp
    ensures { result ≡ stamp_at cells.now r o }
{
    stamp::read(cells, stamp_cell(r, o))
}

pub fn put_write(cells: &mut [u32; CELLS], r: Table, w: Write)
    ensures { cells.new ≡ tabled cells.old r w }
{
    cells[value_cell(r, w.object)] = w.value;
    stamp::write(cells, stamp_cell(r, w.object), w.stamp);
}

// ---- the log

// The write at a position of the log.
pub fn read_entry(cells: &[u32; CELLS], p: Position) -> Write
    ensures { result ≡ entry_at cells.now p }
{
    Write {
        operation: cells[entry_cell(0, p)],
        object: cells[entry_cell(1, p)],
        value: cells[entry_cell(2, p)],
        stamp: stamp::read(cells, entry_stamp_cell(p)),
    }
}

pub fn put_entry(cells: &mut [u32; CELLS], p: Position, w: Write)
    ensures { cells.new ≡ logged cells.old p w }
{
    cells[entry_cell(0, p)] = w.operation;
    cells[entry_cell(1, p)] = w.object;
    cells[entry_cell(2, p)] = w.value;
    stamp::write(cells, entry_stamp_cell(p), w.stamp);
}
