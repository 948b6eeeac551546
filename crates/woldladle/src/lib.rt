// The model for callers in C and Rust: a session and lent memory, records and lines. bindings/c/woldladle.h says where each thing lies.
#![tactic(auto)]
// By hand: 0 for none, a refusal by its number, the lent cells one by one and a count beside the packets, as the C interface has them.

ghost use Rattle.std.specs.Prelude.{◌≡◌};
ghost use Rattle.session_lines.specs.{line_for, put_bytes};
ghost use Rattle.numbered_records.specs.{record_refusal, record_buffer, context_refusal, context_buffer, record_size};
ghost use Rattle.store.specs.{live_count};
ghost use Rattle.replica_values.specs.{value_of, stamp_held, chain_of, positions_told, positions_in};
ghost use Rattle.lines.specs.Text.{put_in};
ghost use Rattle.waiting.specs.Waiting.{waiting_list};
ghost use Rattle.protocol.specs.Steps.{machine, after, stepped_by, start_switch, start_store, start_opens};
ghost use Rattle.sessions.specs.{start_asked, session_started, asked_by, session_after};

use sessions::Session;
use waiting::Packet;

// The start of one record, which is all of the lent bytes.
#[unsafe(no_mangle)]
pub extern "C" fn woldladle_start(
    session: &mut Session,
    switch: &mut [u32; switch::CELLS],
    store: &mut [u32; store::CELLS],
    opens: &mut [u32; operations::CELLS],
    bytes: &[u8],
)
    ensures { (session.new ≡ session_started (start_asked bytes.now) session.old)
        × (switch.new ≡ start_switch (start_asked bytes.now) switch.old)
        × (store.new ≡ start_store (start_asked bytes.now) store.old)
        × (opens.new ≡ start_opens (start_asked bytes.now) opens.old) }
{
    let before = *session;
    *session = sessions::begin(before, switch, store, opens, bytes);
}

// The step of one record, which is all of the lent bytes.
#[unsafe(no_mangle)]
pub extern "C" fn woldladle_step(
    session: &mut Session,
    switch: &mut [u32; switch::CELLS],
    store: &mut [u32; store::CELLS],
    opens: &mut [u32; operations::CELLS],
    packets: &mut [Packet],
    bytes: &[u8],
)
    ensures { (session.new ≡ session_after session.old.marks
        (stepped_by (machine switch.old store.old opens.old (waiting_list packets.old session.old.waiting)) (asked_by bytes.now)))
        × (switch.new ≡ (after (machine switch.old store.old opens.old (waiting_list packets.old session.old.waiting)) (asked_by bytes.now)).switch)
        × (store.new ≡ (after (machine switch.old store.old opens.old (waiting_list packets.old session.old.waiting)) (asked_by bytes.now)).store)
        × (opens.new ≡ (after (machine switch.old store.old opens.old (waiting_list packets.old session.old.waiting)) (asked_by bytes.now)).opens)
        × (packets.new ≡ (after (machine switch.old store.old opens.old (waiting_list packets.old session.old.waiting)) (asked_by bytes.now)).waiting.packets) }
{
    let before = *session;
    let x = sessions::asked(bytes);
    let done = machine::step(switch, store, opens, packets, before.waiting, x);
    *session = sessions::noted(before.marks, done);
}

// The line of record `number`, from the fields of its session, at the start of the buffer. How many bytes it has: 0 where the buffer is too short, and
// unchanged.
#[unsafe(no_mangle)]
pub extern "C" fn woldladle_line(
    number: u64,
    refusal: u8,
    operation: u32,
    count: u32,
    values: &[u32; 8],
    freshness: u32,
    waiting: usize,
    marks: u32,
    out: &mut [u8],
) -> usize
    ensures { (result ≡ put_bytes out.old (line_for number refusal operation count values.now freshness waiting marks))
        × (out.new ≡ put_in out.old 0 (line_for number refusal operation count values.now freshness waiting marks)) }
{
    session_lines::line(
        number, refusal, operation, count, values, freshness, waiting, marks, out,
    )
}

// Writes a record at the start of the buffer: its tag, and its numbers in the order of the record, 0 for one that it does not have. 0, or refusal 1 where there is
// no such record, or 15 where the buffer is too short; a refusal leaves the buffer as it was.
#[unsafe(no_mangle)]
pub extern "C" fn woldladle_write_record(tag: u8, first: u32, second: u32, out: &mut [u8]) -> u8
    ensures { (result ≡ record_refusal out.old tag first second) × (out.new ≡ record_buffer out.old tag first second) }
{
    numbered_records::refusal_in(numbered_records::write_record(tag, first, second, out))
}

// Writes the record of a read of a whole context at the start of the buffer. 0, or refusal 1 where there are not 2 to 8 objects, or 15 where the buffer is too short; a
// refusal leaves the buffer as it was.
#[unsafe(no_mangle)]
pub extern "C" fn woldladle_write_context(objects: &[u16], out: &mut [u8]) -> u8
    ensures { (result ≡ context_refusal out.old objects.now) × (out.new ≡ context_buffer out.old objects.now) }
{
    numbered_records::refusal_in(numbered_records::write_context(objects, out))
}

// How many bytes the record of a tag has, 0 for an unknown tag and for that of a read of a whole context.
#[unsafe(no_mangle)]
pub extern "C" fn woldladle_record_length(tag: u8) -> u16
    ensures { result ≡ record_size tag }
{
    numbered_records::record_length(tag)
}

// The value of an object at a live or joining replica, in a quorum store by what the replica has executed: 0 where there is no such replica or object, or no copy of it yet.
#[unsafe(no_mangle)]
pub extern "C" fn woldladle_value(store: &[u32; store::CELLS], replica: u8, object: u32) -> u32
    ensures { result ≡ value_of store.now replica object }
{
    replica_values::value(store, replica, object)
}

// Its stamp: the switch number times 4,294,967,296, and the counter. Whatever the store holds, all that stands above the counter is the switch number.
#[unsafe(no_mangle)]
pub extern "C" fn woldladle_stamp(store: &[u32; store::CELLS], replica: u8, object: u32) -> u64
    ensures { result ≡ stamp_held store.now replica object }
{
    replica_values::stamp(store, replica, object)
}

// The live replicas in chain order, in a quorum store the leader first, 0 behind the last, then the number of the replica that joins and the copies that it has, or 0. How many are live.
#[unsafe(no_mangle)]
pub extern "C" fn woldladle_chain(store: &[u32; store::CELLS], out: &mut [u8; 10]) -> u8
    ensures { (result ≡ live_count store.now) × (out.new ≡ chain_of store.now) }
{
    replica_values::chain(store, out)
}

// Of a live replica of a quorum store: how many entries of the leader's log it has logged, how many it has executed, and how many the leader knows it to have logged. 1, or 0 where the store is
// no quorum store or has no such replica, with the lent places as they were.
#[unsafe(no_mangle)]
pub extern "C" fn woldladle_positions(
    store: &[u32; store::CELLS],
    replica: u8,
    out: &mut [u32; 3],
) -> u8
    ensures { (result ≡ positions_told store.now replica) × (out.new ≡ positions_in store.now replica out.old) }
{
    replica_values::positions(store, replica, out)
}
