// The chain's shape: which replicas are live, in which order, and which switch they permit.
#![tactic(auto)]

ghost use Rattle.std.specs.Prelude.{◌≡◌, ◌%◌, ◌≤◌, ◌<◌};
ghost use Rattle.store.specs.{live_count, order_at, number_at};
ghost use Rattle.chain.specs.{member_at, head_of, tail_of, found_place, found_table, number_in, head_number, tail_number, read_replica_of, read_replica_number, is_read_place, chosen_by, permits, all_permit, permitting, removed, numbered, empty_store};

use limits::{Number, REPLICAS, Replica, Table};
use store::{CELLS, LAST_NUMBER, LIVE, ORDER, PERMITS};

// The last of the eight places of the order.
const LAST_PLACE: usize = 7;

// How many replicas are live.
pub fn count(cells: &[u32; CELLS]) -> usize
    ensures { (result ≡ live_count cells.now) × (result ≤ 8) }
{
    (cells[LIVE] as usize).min(REPLICAS)
}

// The table of the replica at a place, live or not; at the place behind the last live one that of a newcomer.
fn at(cells: &[u32; CELLS], place: usize) -> Table
    requires { place ≤ 8 }
    ensures { result ≡ order_at cells.now place }
{
    (cells[ORDER + place] % 256) as Table
}

// Its number.
fn number_at(cells: &[u32; CELLS], place: usize) -> Replica
    requires { place ≤ 8 }
    ensures { result ≡ number_at cells.now place }
{
    (cells[ORDER + place] / 256 % 256) as Replica
}

// The table and the number that stand behind the live replicas in the order: a newcomer's, where one joins.
pub fn table_behind(cells: &[u32; CELLS]) -> Table
    ensures { result ≡ order_at cells.now (live_count cells.now) }
{
    at(cells, count(cells))
}

pub fn number_behind(cells: &[u32; CELLS]) -> Replica
    ensures { result ≡ number_at cells.now (live_count cells.now) }
{
    number_at(cells, count(cells))
}

// ---- by tables, and by numbers
//
// By hand: the functions come in pairs, one for each byte of the order's cell. One function for both, over which byte is read, would be no shorter than the two of a pair:
// `if place < count(cells) { read(cells, place) } else { 0 }` beside `member` and `number_in`, which name its argument. Where none is live or a place is past the last, 0 stands for none:
// head_of, tail_of and number_in of chain/specs have it so, and the theorems above compare with it.

pub fn member(cells: &[u32; CELLS], place: usize) -> Table
    ensures { result ≡ member_at cells.now place }
{
    if place < count(cells) {
        at(cells, place)
    } else {
        0
    }
}

pub fn number_in(cells: &[u32; CELLS], place: usize) -> Replica
    ensures { result ≡ number_in cells.now place }
{
    if place < count(cells) {
        number_at(cells, place)
    } else {
        0
    }
}

pub fn head(cells: &[u32; CELLS]) -> Table
    ensures { result ≡ head_of cells.now }
{
    member(cells, 0)
}

pub fn head_number(cells: &[u32; CELLS]) -> Replica
    ensures { result ≡ head_number cells.now }
{
    number_in(cells, 0)
}

pub fn tail(cells: &[u32; CELLS]) -> Table
    ensures { result ≡ tail_of cells.now }
{
    member(cells, count(cells).saturating_sub(1))
}

pub fn tail_number(cells: &[u32; CELLS]) -> Replica
    ensures { result ≡ tail_number cells.now }
{
    number_in(cells, count(cells).saturating_sub(1))
}

// The replica that answers normal reads, by its table and by its number: the tail, or the leader of a quorum store.
pub fn read_replica(cells: &[u32; CELLS]) -> Table
    ensures { result ≡ read_replica_of cells.now }
{
    if store::is_quorum(cells) {
        head(cells)
    } else {
        tail(cells)
    }
}

pub fn read_replica_number(cells: &[u32; CELLS]) -> Replica
    ensures { result ≡ read_replica_number cells.now }
{
    if store::is_quorum(cells) {
        head_number(cells)
    } else {
        tail_number(cells)
    }
}

// Whether it stands at this place.
pub fn is_read_place(cells: &[u32; CELLS], place: usize) -> bool
    ensures { result ≡ is_read_place cells.now place }
{
    if store::is_quorum(cells) {
        place == 0
    } else {
        let n = count(cells);
        n != 0 && place == n - 1
    }
}

// The place that a choice names among so many live replicas. The table of remainders is asked for no other count.
fn chosen_place(choice: u8, n: usize) -> usize
    requires { (1 ≤ n) × (n ≤ 8) }
    ensures { result ≡ choice % n }
{
    usize::from(remainders::remainder(choice, n))
}

// The live replica that a choice names: at place (choice mod number of live replicas).
pub fn choose(cells: &[u32; CELLS], choice: u8) -> Replica
    ensures { result ≡ chosen_by cells.now choice }
{
    let n = count(cells);
    if n == 0 {
        return 0;
    }
    let place = chosen_place(choice, n);
    number_at(cells, place)
}

// The place in the chain of the replica with this number, where it is live.
pub fn place(cells: &[u32; CELLS], r: Replica) -> Option<usize>
    ensures { result ≡ found_place cells.now r }
{
    (0..count(cells)).find(|i| number_at(cells, *i) == r)
}

// Its table, where it is live.
pub fn table(cells: &[u32; CELLS], r: Replica) -> Option<Table>
    ensures { result ≡ found_table cells.now r }
{
    place(cells, r).map(|place| member(cells, place))
}

// ---- permits

fn permits(cells: &[u32; CELLS], number: Number, r: Table) -> bool
    ensures { result ≡ permits cells.now number r }
{
    store::permitted(cells, r) == u32::from(number)
}

// Whether every live replica permits the switch.
pub fn all_permit(cells: &[u32; CELLS], number: Number) -> bool
    ensures { result ≡ all_permit cells.now number }
{
    (0..count(cells)).all(|i| permits(cells, number, at(cells, i)))
}

pub fn permit(cells: &mut [u32; CELLS], r: Table, number: Number)
    ensures { cells.new ≡ permitting cells.old r number }
{
    cells[PERMITS + store::row(r)] = u32::from(number);
}

// ---- removal

// The replica at this place is removed; unchanged where there is none.
pub fn remove(cells: &mut [u32; CELLS], from: usize)
    ensures { cells.new ≡ removed cells.old from }
{
    let n = count(cells);
    if n <= from {
        return;
    }
    let table = at(cells, from);
    for i in from..LAST_PLACE {
        cells[ORDER + i] = cells[ORDER + i + 1];
    }
    cells[ORDER + LAST_PLACE] = u32::from(table);
    cells[LIVE] = (n - 1) as u32;
}

// ---- the start

// The eight replicas are numbered, each with the table of its number, and permit switch number 1.
fn number(cells: &mut [u32; CELLS])
    ensures { cells.new ≡ numbered cells.old 8 }
{
    for i in 0..REPLICAS {
        let number = i as u32 + 1;
        cells[ORDER + i] = 256 * number + number;
        cells[PERMITS + i] = 1;
    }
}

// n replicas, with nothing written.
pub fn clear(cells: &mut [u32; CELLS], n: u8)
    ensures { cells.new ≡ empty_store n }
{
    *cells = [0; CELLS];
    number(cells);
    cells[LIVE] = u32::from(n);
    cells[LAST_NUMBER] = u32::from(n);
}
