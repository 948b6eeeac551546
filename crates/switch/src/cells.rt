// The switch's numbers where the caller lends them.
ghost use Rattle.std.specs.Prelude.{◌≡◌, ◌+◌, ◌<◌, set, IfSome};
ghost use Rattle.switch.specs.Numbers.{counter_cell, object_cell, slot_stamp_cell, marks_cell, number_in, counter_in, committed_in, direct_in, marks_in, slot_object, slot_stamp};
ghost use Rattle.limits.specs.{last_counter};
ghost use Rattle.stamp.specs.Stamps.{set_stamp};
ghost use Rattle.slots.specs.{holds_above};
ghost use Rattle.switch.specs.Found.{CanTest, IsFirst, IsSlot};
ghost use Rattle.switch.specs.DirtySet.{holds_at, free_slot, slot_for, looked_up, marks_for, marked, stamp_for, cleared_at, cleared, is_own, raising, committing, completed, counted_marks};
ghost use Rattle.switch.specs.Values.{switch_of};

use crate::{CELLS, COMMITTED, COUNTER, DIRECT, MARKS, NUMBER, OBJECTS, SLOTS, STAMPS, Switch};
use limits::{Counter, LAST_COUNTER, Number, Object, Stamp};
use slots::{first_slot, holds, holds_above, is_completed, is_free, second_slot, third_slot};

// ---- single numbers

pub fn number(cells: &[u32; CELLS]) -> Number
    ensures { result ≡ number_in cells.now }
{
    (cells[NUMBER] % 65536) as Number
}

fn counter(cells: &[u32; CELLS]) -> Counter
    ensures { result ≡ counter_in cells.now }
{
    cells[COUNTER]
}

pub fn committed(cells: &[u32; CELLS]) -> Stamp
    ensures { result ≡ committed_in cells.now }
{
    stamp::read(cells, COMMITTED)
}

pub fn is_direct(cells: &[u32; CELLS]) -> bool
    ensures { result ≡ direct_in cells.now }
{
    cells[DIRECT] != 0
}

// The stored number of marks that count.
pub fn marks(cells: &[u32; CELLS]) -> u32
    ensures { result ≡ marks_in cells.now }
{
    cells[MARKS]
}

// By hand: `i < 48` is asked of each private function over a slot. A struct for a slot's number with this invariant would be made once and taken apart at each cell, and so be longer.
fn object_at(cells: &[u32; CELLS], i: usize) -> u32
    requires { i < 48 }
    ensures { result ≡ slot_object cells.now i }
{
    cells[OBJECTS + i]
}

fn stamp_at(cells: &[u32; CELLS], i: usize) -> Stamp
    requires { i < 48 }
    ensures { result ≡ slot_stamp cells.now i }
{
    stamp::read(cells, STAMPS + 2 * i)
}

// ---- look-up

fn holds_at(cells: &[u32; CELLS], o: Object, i: usize) -> bool
    requires { i < 48 }
    ensures { result ≡ holds_at cells.now o i }
{
    holds(object_at(cells, i), stamp_at(cells, i), o)
}

fn counts_at(cells: &[u32; CELLS], o: Object, c: Stamp, i: usize) -> bool
    requires { i < 48 }
    ensures { result ≡ holds_above (slot_object cells.now i) (slot_stamp cells.now i) o c }
{
    holds_above(object_at(cells, i), stamp_at(cells, i), o, c)
}

// The first of the object's three slots that passes the test.
fn first_of<F: Fn(usize) -> bool>(o: Object, passes: F) -> Option<usize>
    requires { CanTest (F.pre passes) }
    ensures in_range { IfSome result (λ i. i < 48) }
    ensures value { IsFirst (F.post passes) o result }
{
    let p1 = first_slot(o);
    let p2 = second_slot(o);
    let p3 = third_slot(o);
    if passes(p1) {
        Some(p1)
    } else if passes(p2) {
        Some(p2)
    } else if passes(p3) {
        Some(p3)
    } else {
        None
    }
}

// The stamp of the object's counting mark, (0,0) where it has none.
// By hand: (0,0) and no Option, here and in `mark`: packets carry this number, and `looked_up` and `stamp_for` of specs/ have (0,0) for none.
pub fn lookup(cells: &[u32; CELLS], o: Object) -> Stamp
    ensures { result ≡ looked_up cells.now o }
{
    let c = committed(cells);
    match first_of(o, |i| counts_at(cells, o, c, i)) {
        Some(i) => stamp_at(cells, i),
        None => 0,
    }
}

// ---- a mark

fn free_slot(cells: &[u32; CELLS], o: Object) -> Option<usize>
    ensures { IsSlot (free_slot cells.now o) result }
{
    let c = committed(cells);
    first_of(o, |i| is_free(stamp_at(cells, i), c))
}

// The slot that a mark of the object goes to.
fn slot_for(cells: &[u32; CELLS], o: Object) -> Option<usize>
    ensures { IsSlot (slot_for cells.now o) result }
{
    first_of(o, |i| holds_at(cells, o, i)).or_else(|| free_slot(cells, o))
}

// The number of counting marks when slot i takes this stamp, without a look at the other slots.
fn marks_for(cells: &[u32; CELLS], i: usize, stamp: Stamp) -> u32
    requires { i < 48 }
    ensures { result ≡ marks_for cells.now i stamp }
{
    let c = committed(cells);
    let before = marks(cells);
    let others = if stamp::above(stamp_at(cells, i), c) {
        before.saturating_sub(1)
    } else {
        before
    };
    if stamp::above(stamp, c) {
        others.saturating_add(1)
    } else {
        others
    }
}

// Slot i takes the object and its write's stamp, and the counter moves on.
fn put_mark(cells: &mut [u32; CELLS], o: Object, i: usize, counter: Counter, stamp: Stamp)
    requires { (i < 48) × (counter < last_counter) }
    ensures { cells.new ≡ set_stamp (set (set cells.old counter_cell (counter + 1)) (object_cell i) o) (slot_stamp_cell i) stamp }
{
    cells[COUNTER] = counter + 1;
    cells[OBJECTS + i] = o;
    stamp::write(cells, STAMPS + 2 * i, stamp);
}

// A write of the object gets the next stamp, and the object a mark with it; (0,0) where it is dropped.
pub fn mark(cells: &mut [u32; CELLS], o: Object) -> Stamp
    ensures { (result ≡ stamp_for cells.old o) × (cells.new ≡ marked cells.old o) }
{
    let counter = counter(cells);
    if counter == LAST_COUNTER {
        return 0;
    }
    let Some(at) = slot_for(cells, o) else {
        return 0; // no slot is free
    };
    let stamp = stamp::make(number(cells), counter + 1);
    let marks = marks_for(cells, at, stamp);
    put_mark(cells, o, at, counter, stamp);
    cells[MARKS] = marks;
    stamp
}

// ---- a completion

// Slot i without a mark of the object that the completion t covers.
fn clear(cells: &mut [u32; CELLS], o: Object, t: Stamp, i: usize)
    requires { i < 48 }
    ensures { cells.new ≡ cleared_at cells.old o t i }
{
    if is_completed(object_at(cells, i), stamp_at(cells, i), o, t) {
        stamp::write(cells, STAMPS + 2 * i, 0);
    }
}

// The marks that it covers are cleared.
fn clear_marks(cells: &mut [u32; CELLS], o: Object, t: Stamp)
    ensures { cells.new ≡ cleared cells.old o t }
{
    clear(cells, o, t, first_slot(o));
    clear(cells, o, t, second_slot(o));
    clear(cells, o, t, third_slot(o));
}

// Req 10: whether the completion t is of a write that the present switch stamped.
fn is_own(cells: &[u32; CELLS], t: Stamp) -> bool
    ensures { result ≡ is_own cells.now t }
{
    stamp::upper(t) == u32::from(number(cells))
}

// Besides, last-committed rises.
fn raise(cells: &mut [u32; CELLS], o: Object, t: Stamp)
    ensures { cells.new ≡ raising cells.old o t }
{
    let c = stamp::larger(committed(cells), t);
    clear_marks(cells, o, t);
    stamp::write(cells, COMMITTED, c);
}

// And direct reads are on, if the completion is the present switch's own.
fn commit(cells: &mut [u32; CELLS], o: Object, t: Stamp)
    ensures { cells.new ≡ committing cells.old o t }
{
    let own = is_own(cells, t);
    raise(cells, o, t);
    if own {
        cells[DIRECT] = 1;
    }
}

// How many marks count, over all slots. A slot whose mark counts adds 65,536 and its own number to the sum: of ones the compiler would make a mask and count its bits, which takes longer
// than adding vectors.
fn count(cells: &[u32; CELLS]) -> u32
    ensures { result ≡ counted_marks cells.now }
{
    let c = committed(cells);
    let mut sum: u32 = 0;
    for i in 0..SLOTS {
        if stamp::above(stamp_at(cells, i), c) {
            sum += 65536 + i as u32;
        }
    }
    sum / 65536
}

// The stored number, counted anew: a completion may stop several marks at once.
fn recount(cells: &mut [u32; CELLS])
    ensures { cells.new ≡ set cells.old marks_cell (counted_marks cells.old) }
{
    cells[MARKS] = count(cells);
}

pub fn complete(cells: &mut [u32; CELLS], o: Object, t: Stamp)
    ensures { cells.new ≡ completed cells.old o t }
{
    commit(cells, o, t);
    recount(cells);
}

// ---- the whole switch

pub fn load(cells: &[u32; CELLS]) -> Switch
    ensures { result ≡ switch_of cells.now }
{
    Switch { cells: *cells }
}

pub fn store(cells: &mut [u32; CELLS], s: Switch)
    ensures { cells.new ≡ s.cells }
{
    // By hand: `*cells = s.cells` gets no generated proof, as an array that is a field is copied straight.
    let all = s.cells;
    *cells = all;
}
