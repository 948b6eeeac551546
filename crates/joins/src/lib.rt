// A replica joins the chain while traffic runs (document 02, Req 04). Until its sixteenth copy it stands behind the live replicas in the order.
#![tactic(auto)]

ghost use Rattle.std.specs.Prelude.{◌≡◌, ◌+◌, ◌*◌, ◌<◌};
ghost use Rattle.joins.specs.{is_joining, copies_made, newcomer, newcomer_number, last_number, is_full, beginning, copied_object, copied, promoted, one_copy, copying, is_copied, is_newcomer, handing_on, join_ended, without};

use limits::{COPIED, COPIES, LAST_REPLICA, Object, REPLICAS, Replica, Table};
use store::{CELLS, JOIN, LAST_NUMBER, LIVE, ORDER, PERMITS, Write};

// Whether a join is under way.
pub fn is_joining(cells: &[u32; CELLS]) -> bool
    ensures { result ≡ is_joining cells.now }
{
    chain::count(cells) < REPLICAS && cells[JOIN] != 0
}

// The copies made so far.
pub fn copies(cells: &[u32; CELLS]) -> u32
    ensures { (result ≡ copies_made cells.now) × (result < 16) }
{
    cells[JOIN].saturating_sub(1) % COPIES
}

// The newcomer's table.
#[tactic(auto, unfolding(crate::specs::newcomer))]
pub fn newcomer(cells: &[u32; CELLS]) -> Table
    ensures { result ≡ newcomer cells.now }
{
    chain::table_behind(cells)
}

// Its number.
#[tactic(auto, unfolding(crate::specs::newcomer_number))]
pub fn newcomer_number(cells: &[u32; CELLS]) -> Replica
    ensures { result ≡ newcomer_number cells.now }
{
    chain::number_behind(cells)
}

fn last_number(cells: &[u32; CELLS]) -> Replica
    ensures { result ≡ last_number cells.now }
{
    (cells[LAST_NUMBER] % 256) as Replica
}

// ---- a join begins

// Whether none can join: eight are live, or the last number has been given.
pub fn is_full(cells: &[u32; CELLS]) -> bool
    ensures { result ≡ is_full cells.now }
{
    REPLICAS <= chain::count(cells) || LAST_REPLICA <= last_number(cells)
}

pub fn begin(cells: &mut [u32; CELLS])
    ensures { cells.new ≡ beginning cells.old }
{
    let number = u32::from(last_number(cells)) + 1;
    let table = u32::from(newcomer(cells));
    let n = chain::count(cells);
    cells[ORDER + n] = 256 * number + table;
    cells[LAST_NUMBER] = number;
    cells[JOIN] = 1;
}

// ---- a copy

// One object's value and stamp go from table t to table q.
fn copy_object(cells: &mut [u32; CELLS], q: Table, t: Table, o: Object)
    ensures { cells.new ≡ copied_object cells.old q t o }
{
    let w = Write {
        operation: 0,
        object: o,
        value: store::read_value(cells, t, o),
        stamp: store::read_stamp(cells, t, o),
    };
    store::put_write(cells, q, w);
}

// The next objects go from the tail to the newcomer.
fn copy_objects(cells: &mut [u32; CELLS])
    ensures { cells.new ≡ one_copy cells.old }
{
    let q = newcomer(cells);
    let t = chain::tail(cells);
    let first = COPIED * copies(cells);
    for k in 0..COPIED {
        copy_object(cells, q, t, first + k);
    }
}

// The newcomer is the tail.
fn promote(cells: &mut [u32; CELLS])
    ensures { cells.new ≡ promoted cells.old }
{
    let q = newcomer(cells);
    let t = chain::tail(cells);
    let highest = store::highest(cells, t);
    let applied = store::applied(cells, t);
    let permitted = store::permitted(cells, t);
    let n = chain::count(cells);
    store::raise(cells, q, highest, applied);
    cells[PERMITS + store::row(q)] = permitted;
    cells[LIVE] = n as u32 + 1;
    cells[JOIN] = 0;
}

pub fn copy(cells: &mut [u32; CELLS])
    ensures { cells.new ≡ copying cells.old }
{
    let made = copies(cells);
    copy_objects(cells);
    if made + 1 == COPIES {
        promote(cells);
    } else {
        cells[JOIN] = made + 2;
    }
}

// ---- meanwhile

// Whether the newcomer has its copy of the object.
pub fn is_copied(cells: &[u32; CELLS], o: Object) -> bool
    ensures { result ≡ is_copied cells.now o }
{
    is_joining(cells) && o < COPIED * copies(cells)
}

// Whether the replica with this number joins.
pub fn is_newcomer(cells: &[u32; CELLS], r: Replica) -> bool
    ensures { result ≡ is_newcomer cells.now r }
{
    is_joining(cells) && newcomer_number(cells) == r
}

// A write that the tail has applied reaches the newcomer, if it has its copy of the object.
pub fn hand_on(cells: &mut [u32; CELLS], w: Write)
    ensures { cells.new ≡ handing_on cells.old w }
{
    if is_copied(cells, w.object) {
        let q = newcomer(cells);
        store::put_write(cells, q, w);
    }
}

// Without its tail no join goes on.
fn end_without(cells: &mut [u32; CELLS], r: Replica)
    ensures { cells.new ≡ join_ended cells.old r }
{
    if let Some(place) = chain::place(cells, r) {
        if place + 1 == chain::count(cells) {
            cells[JOIN] = 0;
        }
    }
}

// The replica is removed; unchanged where it is gone.
pub fn remove(cells: &mut [u32; CELLS], r: Replica)
    ensures { cells.new ≡ without cells.old r }
{
    if let Some(place) = chain::place(cells, r) {
        end_without(cells, r);
        chain::remove(cells, place);
    }
}
