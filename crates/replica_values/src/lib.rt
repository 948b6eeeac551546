// What a replica holds, and which replicas there are.
#![tactic(auto)]

ghost use Rattle.std.specs.Prelude.{◌≡◌};
ghost use Rattle.store.specs.{live_count};
ghost use Rattle.replica_values.specs.{table_for, value_of, stamp_held, newcomer_of, copies_of, chain_of, positions_told, positions_in};

use limits::{OBJECTS, Replica, Stamp, Table};
use store::CELLS;

// How many numbers tell the chain.
pub const CHAIN: usize = 10;

// How many numbers tell the positions of a replica.
pub const POSITIONS: usize = 3;

// The table that has the replica's value of an object, or 0.
// By hand: 0 for none and no Option, here and below, as the C functions tell it and `table_for`, `value_of` and `positions_told` of specs/ have it.
fn table(store: &[u32; CELLS], replica: Replica, object: u32) -> Table
    ensures { result ≡ table_for store.now replica object }
{
    if OBJECTS <= (object as usize) {
        return 0;
    }
    if let Some(table) = chain::table(store, replica) {
        return table;
    }
    if !joins::is_newcomer(store, replica) {
        return 0;
    }
    if joins::is_copied(store, object) {
        return joins::newcomer(store);
    }
    0
}

// By hand: this and `stamp` differ in what is read from the table; with that as a closure neither would be shorter.
// The value of an object at a live or joining replica; 0 where there is no such replica or object, or no copy of it yet.
pub fn value(store: &[u32; CELLS], replica: Replica, object: u32) -> u32
    ensures { result ≡ value_of store.now replica object }
{
    let t = table(store, replica, object);
    if t == 0 {
        return 0;
    }
    store::read_value(store, t, object)
}

// Its stamp: the switch number times 4,294,967,296, and the counter.
pub fn stamp(store: &[u32; CELLS], replica: Replica, object: u32) -> Stamp
    ensures { result ≡ stamp_held store.now replica object }
{
    let t = table(store, replica, object);
    if t == 0 {
        return 0;
    }
    store::read_stamp(store, t, object)
}

fn newcomer(store: &[u32; CELLS]) -> u8
    ensures { result ≡ newcomer_of store.now }
{
    if joins::is_joining(store) {
        return joins::newcomer_number(store);
    }
    0
}

fn copies(store: &[u32; CELLS]) -> u8
    ensures { result ≡ copies_of store.now }
{
    if joins::is_joining(store) {
        return joins::copies(store) as u8;
    }
    0
}

// The live replicas in chain order, in a quorum store the leader first, the newcomer and its copies. How many are live.
pub fn chain(store: &[u32; CELLS], out: &mut [u8; CHAIN]) -> u8
    ensures { (result ≡ live_count store.now) × (out.new ≡ chain_of store.now) }
{
    let all = [
        chain::number_in(store, 0),
        chain::number_in(store, 1),
        chain::number_in(store, 2),
        chain::number_in(store, 3),
        chain::number_in(store, 4),
        chain::number_in(store, 5),
        chain::number_in(store, 6),
        chain::number_in(store, 7),
        newcomer(store),
        copies(store),
    ];
    *out = all;
    chain::count(store) as u8
}

// Of a live replica of a quorum store: how many entries it has logged, how many it has executed, and how many the leader knows it to have logged. 1, or 0 where there is no such
// replica, with the lent places as they were.
pub fn positions(store: &[u32; CELLS], replica: Replica, out: &mut [u32; POSITIONS]) -> u8
    ensures { (result ≡ positions_told store.now replica) × (out.new ≡ positions_in store.now replica out.old) }
{
    if !store::is_quorum(store) {
        return 0;
    }
    let Some(t) = chain::table(store, replica) else {
        return 0;
    };
    let all = [
        quorum::logged(store, t),
        store::applied(store, t),
        quorum::acknowledged(store, t),
    ];
    *out = all;
    1
}
