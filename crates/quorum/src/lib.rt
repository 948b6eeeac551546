// A quorum store (document 02, Req 11): a leader with followers. The leader's log is that of crates/store; every follower is sent the same items, an entry for each write that the leader logs
// and a stamp for each that it executes, and a link is what lies between the items that a follower has taken and all that were sent.
#![tactic(auto)]

ghost use Rattle.std.specs.Prelude.{◌≡◌, ◌<◌, ◌≤◌};
ghost use Rattle.lists.specs.{all_of};
ghost use Rattle.store.specs.{members, entry_at};
ghost use Rattle.quorum.specs.{logged_by, acknowledged_by, is_entry, items_taken, linked_items, has_room, links_have_room, last_logged, unexecuted, logs, sending_item, count_logged, logging, next_is_entry, next_entry, acknowledging, is_holder, count_of, majority_holds, executes, executing, answers_behind, quorum_store};

use limits::{LAST_POSITION, Number, Position, Stamp, Table};
use store::{ACKNOWLEDGED, CELLS, ITEMS, KIND, LOGGED, Write};

// The leader's log holds at most so many entries that are not executed.
const UNEXECUTED: Position = 64;

// ---- what each replica has

// How many entries of the leader's log the replica has logged.
pub fn logged(cells: &[u32; CELLS], r: Table) -> Position
    ensures { result ≡ logged_by cells.now r }
{
    cells[LOGGED + store::row(r)]
}

// How many of them the leader knows it to have logged.
pub fn acknowledged(cells: &[u32; CELLS], r: Table) -> Position
    ensures { result ≡ acknowledged_by cells.now r }
{
    cells[ACKNOWLEDGED + store::row(r)]
}

// ---- the links

// How many items the replica has taken; the leader has made them all.
fn taken(cells: &[u32; CELLS], r: Table) -> usize
    ensures { result ≡ items_taken cells.now r }
{
    logged(cells, r) as usize + store::applied(cells, r) as usize
}

fn is_entry(cells: &[u32; CELLS], p: usize) -> bool
    ensures { result ≡ is_entry cells.now p }
{
    cells[ITEMS + p % 64] == 1
}

// How many items the link to the replica holds.
pub fn linked(cells: &[u32; CELLS], r: Table) -> usize
    ensures { result ≡ linked_items cells.now r }
{
    taken(cells, chain::head(cells)).saturating_sub(taken(cells, r))
}

fn has_room(cells: &[u32; CELLS], r: Table) -> bool
    ensures { result ≡ has_room cells.now r }
{
    linked(cells, r) < 64
}

// Whether no link is full.
fn links_have_room(cells: &[u32; CELLS]) -> bool
    ensures { result ≡ links_have_room cells.now }
{
    (0..chain::count(cells)).all(|i| has_room(cells, chain::member(cells, i)))
}

// ---- the leader logs

fn entry_stamp(cells: &[u32; CELLS], p: Position) -> Stamp
    ensures { result ≡ (entry_at cells.now p).stamp }
{
    store::read_entry(cells, p).stamp
}

// The stamp of the last entry.
fn last_logged(cells: &[u32; CELLS]) -> Stamp
    ensures { result ≡ last_logged cells.now }
{
    let n = logged(cells, chain::head(cells));
    entry_stamp(cells, n.saturating_sub(1))
}

fn not_executed(cells: &[u32; CELLS]) -> Position
    ensures { result ≡ unexecuted cells.now }
{
    let lead = chain::head(cells);
    logged(cells, lead).saturating_sub(store::applied(cells, lead))
}

// Whether the leader logs a write with this stamp; if not, the write is dropped.
pub fn accepts(cells: &[u32; CELLS], stamp: Stamp) -> bool
    ensures { result ≡ logs cells.now stamp }
{
    stamp::above(stamp, last_logged(cells))
        && not_executed(cells) < UNEXECUTED
        && links_have_room(cells)
        && logged(cells, chain::head(cells)) < LAST_POSITION
}

// An item goes into every link: 1 for an entry, 0 for an executed stamp.
fn send(cells: &mut [u32; CELLS], item: u32)
    ensures { cells.new ≡ sending_item cells.old item }
{
    let p = taken(cells, chain::head(cells));
    cells[ITEMS + p % 64] = item;
}

// The replica has logged one entry more.
pub fn log_next(cells: &mut [u32; CELLS], r: Table)
    ensures { cells.new ≡ count_logged cells.old r }
{
    let n = replicas::next_position(logged(cells, r));
    cells[LOGGED + store::row(r)] = n;
}

// The leader logs a write, and sends it to every follower.
pub fn log(cells: &mut [u32; CELLS], w: Write)
    ensures { cells.new ≡ logging cells.old w }
{
    let lead = chain::head(cells);
    let p = logged(cells, lead);
    store::put_entry(cells, p, w);
    send(cells, 1);
    log_next(cells, lead);
}

// ---- a follower takes the oldest item of its link

// Whether that is an entry.
pub fn next_is_entry(cells: &[u32; CELLS], r: Table) -> bool
    ensures { result ≡ next_is_entry cells.now r }
{
    is_entry(cells, taken(cells, r))
}

// The next entry that the replica executes.
pub fn next_entry(cells: &[u32; CELLS], r: Table) -> Write
    ensures { result ≡ next_entry cells.now r }
{
    store::read_entry(cells, store::applied(cells, r))
}

// The leader hears that the replica has logged k entries; what it heard before is not taken back.
pub fn acknowledge(cells: &mut [u32; CELLS], r: Table, k: Position)
    ensures { cells.new ≡ acknowledging cells.old r k }
{
    let known = acknowledged(cells, r);
    cells[ACKNOWLEDGED + store::row(r)] = known.max(k);
}

// ---- the leader executes

fn is_holder(cells: &[u32; CELLS], p: Position, r: Table) -> bool
    ensures { result ≡ is_holder cells.now p r }
{
    r == chain::head(cells) || p < acknowledged(cells, r)
}

// How many replicas hold entry p, as far as the leader knows.
fn holders(cells: &[u32; CELLS], p: Position) -> usize
    ensures { (result ≡ count_of (is_holder cells.now p) (members cells.now)) × (result ≤ 8) }
{
    (0..chain::count(cells))
        .filter(|i| is_holder(cells, p, chain::member(cells, *i)))
        .count()
}

fn majority_holds(cells: &[u32; CELLS], p: Position) -> bool
    ensures { result ≡ majority_holds cells.now p }
{
    chain::count(cells) < 2 * holders(cells, p)
}

// Whether the leader has a write to execute, and room for its stamp in every link.
pub fn executes(cells: &[u32; CELLS]) -> bool
    ensures { result ≡ executes cells.now }
{
    let next = store::applied(cells, chain::head(cells));
    not_executed(cells) != 0 && majority_holds(cells, next) && links_have_room(cells)
}

pub fn execute(cells: &mut [u32; CELLS])
    ensures { cells.new ≡ executing cells.old }
{
    let lead = chain::head(cells);
    let w = next_entry(cells, lead);
    send(cells, 0);
    replicas::apply(cells, lead, w);
}

// ---- direct reads

// Whether the replica answers a direct read that carries this switch number and stamp.
pub fn answers(cells: &[u32; CELLS], r: Table, number: Number, carried: Stamp) -> bool
    ensures { result ≡ answers_behind cells.now r number carried }
{
    store::permitted(cells, r) == u32::from(number)
        && !stamp::above(carried, store::highest(cells, r))
}

// ---- the start

pub fn clear(cells: &mut [u32; CELLS], n: u8)
    ensures { cells.new ≡ quorum_store n }
{
    chain::clear(cells, n);
    cells[KIND] = 1;
}
