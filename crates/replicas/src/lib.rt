// The replicas: up to eight in a chain, all that they keep in a store that the caller lends, and the links between neighbours.
// The head's applied writes are a log. Each replica has applied a front part of it, so a link holds what lies between two neighbours' parts.
#![tactic(auto)]

ghost use Rattle.std.specs.Prelude.{◌≡◌, [], ◌∷◌};
ghost use Rattle.replicas.specs.Replicas.{linked_writes, accepts, next_position, applying, taking, pending_at, oldest, is_not_above, answers_direct};
ghost use Rattle.replicas.specs.Visible.{visible_count};
ghost use Rattle.store.specs.{entry_at};

use limits::{LAST_POSITION, Number, Object, Position, Stamp, Table};
use store::{CELLS, Write};

fn linked(cells: &[u32; CELLS]) -> Position
    ensures { result ≡ linked_writes cells.now }
{
    let first = store::applied(cells, chain::head(cells));
    let last = store::applied(cells, chain::tail(cells));
    first.saturating_sub(last)
}

// Whether the replica takes a write with this stamp; if not, the write is dropped.
pub fn accepts(cells: &[u32; CELLS], r: Table, stamp: Stamp) -> bool
    ensures { result ≡ accepts cells.now r stamp }
{
    stamp::above(stamp, store::highest(cells, r))
        && linked(cells) < 64
        && store::applied(cells, r) < LAST_POSITION
}

pub fn next_position(p: Position) -> Position
    ensures { result ≡ next_position p }
{
    p.saturating_add(1)
}

// The replica applies a write.
pub fn apply(cells: &mut [u32; CELLS], r: Table, w: Write)
    ensures { cells.new ≡ applying cells.old r w }
{
    let highest = stamp::larger(store::highest(cells, r), w.stamp);
    let applied = next_position(store::applied(cells, r));
    store::put_write(cells, r, w);
    store::raise(cells, r, highest, applied);
}

// The replica applies a stamped write and puts it in the link to the next one.
pub fn take(cells: &mut [u32; CELLS], r: Table, w: Write)
    ensures { cells.new ≡ taking cells.old r w }
{
    let p = store::applied(cells, r);
    store::put_entry(cells, p, w);
    apply(cells, r, w);
}

// How many writes the link into this place holds, for the replica there.
pub fn pending(cells: &[u32; CELLS], place: usize, r: Table) -> Position
    ensures { result ≡ pending_at cells.now place r }
{
    if place == 0 {
        return 0;
    }
    let before = store::applied(cells, chain::member(cells, place - 1));
    let own = store::applied(cells, r);
    before.saturating_sub(own)
}

// The oldest write of the replica's incoming link.
pub fn oldest(cells: &[u32; CELLS], r: Table) -> Write
    ensures { result ≡ oldest cells.now r }
{
    store::read_entry(cells, store::applied(cells, r))
}

// Whether the object's stamp at the replica is not above the one carried.
pub fn is_not_above(cells: &[u32; CELLS], r: Table, carried: Stamp, o: Object) -> bool
    ensures { result ≡ is_not_above cells.now r carried o }
{
    !stamp::above(store::read_stamp(cells, r, o), carried)
}

// Whether the replica answers a direct read of one object that carries this switch number and stamp.
pub fn answers(cells: &[u32; CELLS], r: Table, o: Object, number: Number, carried: Stamp) -> bool
    ensures { result ≡ answers_direct cells.now r number carried (o ∷ []) }
{
    store::permitted(cells, r) == u32::from(number) && is_not_above(cells, r, carried, o)
}

// How many writes of the log are visible.
pub fn visible(cells: &[u32; CELLS]) -> Position
    ensures { result ≡ visible_count cells.now }
{
    store::applied(cells, chain::read_replica(cells))
}

// The write at a position of the log: after a step, those from the position before it up to the one after it have become visible.
pub fn logged(cells: &[u32; CELLS], position: Position) -> Write
    ensures { result ≡ entry_at cells.now position }
{
    store::read_entry(cells, position)
}
