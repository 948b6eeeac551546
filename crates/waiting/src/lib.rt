// The waiting list: packets, oldest first, in a slice that the caller lends, with a count; and an edit that says what a step does to it. Nothing here
// decides a step.
#![tactic(auto)]

ghost use Rattle.std.specs.Prelude.{◌≡◌, ◌-◌, ◌≤◌, length, set};
ghost use Rattle.lists.specs.{moves};
ghost use Rattle.waiting.specs.Waiting.{blank, waiting_list, held_in, takes_out, fits, look_at, edited};
ghost use Rattle.waiting.specs.Plans.{still, planned, plan_of};

use limits::{Number, Object, Operation, Replica, Stamp, Value, WAITING};

// A packet of any kind: the machine above says which kinds there are and which fields each uses. 24 bytes, no padding.
#[repr(C)]
#[derive(Clone, Copy, Default)]
pub struct Packet {
    pub kind: u8,
    pub replica: Replica,
    pub number: Number,
    pub operation: Operation,
    pub stamp: Stamp,
    pub object: Object,
    pub value: Value,
}

// What a step does to the list: the packet at `at` goes out if `take` says so, then `add` of the two packets come to the end.
// By hand: `take` beside `at` and `add` beside the packets, and no Options, as `takes_out`, `adding` and `edited` of specs/Waiting.antt and the theorems of the crates above read these fields.
#[derive(Clone, Copy)]
pub struct Edit {
    pub take: bool,
    pub at: usize,
    pub add: usize,
    pub first: Packet,
    pub second: Packet,
}

// An edit place by place: the packets after place `from`, up to place `last`, move down one place, the first new packet goes to `place`, the second to
// `next`, and `count` then wait. A place past the end of the slice takes none.
#[derive(Clone, Copy)]
struct Plan {
    from: usize,
    last: usize,
    place: usize,
    next: usize,
    count: usize,
}

impl Packet {
    // The packet of a place that holds none.
    pub fn blank() -> Packet
        ensures { result ≡ blank }
    {
        Packet::default()
    }
}

// ---- what an edit does
// By hand: a slice with a count beside it, and no list type, as callers lend the memory: a rule of the project (fixed memory, no heap).

// How many packets wait.
pub fn held(count: usize) -> usize
    ensures { (result ≡ held_in count) × (result ≤ 64) }
{
    count.min(WAITING)
}

fn takes_out(count: usize, e: Edit) -> bool
    ensures { result ≡ takes_out count e }
{
    e.take && e.at < held(count)
}

// Whether 64 places are lent and no more than 64 packets wait once `add` have come to the `left` that are left.
fn fits(length: usize, left: usize, add: usize) -> bool
    ensures { result ≡ fits length left add }
{
    WAITING <= length && left.saturating_add(add) <= WAITING
}

// Nothing moves and nothing comes: at the end of the slice nothing is put.
fn still(length: usize, count: usize) -> Plan
    ensures { result ≡ still length count }
{
    Plan {
        from: 0,
        last: 0,
        place: length,
        next: length,
        count,
    }
}

// The packets after `from` move, up to `last`, and `left` are left, to which `add` come.
fn plan_from(length: usize, count: usize, from: usize, last: usize, left: usize, add: usize) -> Plan
    ensures { result ≡ planned length count from last left add }
{
    if !fits(length, left, add) {
        return still(length, count);
    }
    Plan {
        from,
        last,
        place: if 1 <= add { left } else { length },
        next: if 2 <= add { left + 1 } else { length },
        count: left + add,
    }
}

fn plan_of(length: usize, count: usize, e: Edit) -> Plan
    ensures { result ≡ plan_of length count e }
{
    if takes_out(count, e) {
        let left = held(count) - 1;
        plan_from(length, count, e.at, left, left, e.add)
    } else {
        plan_from(length, count, 0, 0, count, e.add)
    }
}

// ---- the lent slice

// The packet at a place, blank past the end.
pub fn look(packets: &mut [Packet], at: usize) -> Packet
    ensures { (result ≡ look_at packets.old at) × (packets.new ≡ packets.old) }
{
    packets.get(at).copied().unwrap_or(Packet::blank())
}

// A place takes a packet; past the end of the slice there is none.
fn put(packets: &mut [Packet], place: usize, p: Packet)
    ensures { packets.new ≡ set packets.old place p }
{
    if place < packets.len() {
        packets[place] = p;
    }
}

// The packets after place `from`, up to place `last`, each move down one place: by twos, and then the last one, once more where it has moved already.
fn close_up(packets: &mut [Packet], from: usize, last: usize)
    requires { (from ≤ last) × (last ≤ length packets.old - 1) }
    ensures { packets.new ≡ moves blank packets.old from (last - from) }
{
    if last <= from {
        return;
    }
    // By hand: `for i in from..last` moves one packet a turn and takes 0.4 instructions more for an edit, `(from..last - 1).step_by(2)` 15 more; std's `copy_within` moves one a turn too.
    let mut i = from;
    while i + 2 <= last {
        packets[i] = packets[i + 1];
        packets[i + 1] = packets[i + 2];
        i += 2;
    }
    packets[last - 1] = packets[last];
}

// A whole edit; the count after it is handed back.
pub fn change(packets: &mut [Packet], count: usize, e: Edit) -> usize
    ensures { (result ≡ (edited (waiting_list packets.old count) e).count)
        × (packets.new ≡ (edited (waiting_list packets.old count) e).packets) }
{
    let p = plan_of(packets.len(), count, e);
    close_up(packets, p.from, p.last);
    put(packets, p.place, e.first);
    put(packets, p.next, e.second);
    p.count
}
