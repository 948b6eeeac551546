// Whole runs: everything that the run program prints for an input, into one lent buffer or piece by piece.
#![tactic(auto)]

ghost use Rattle.std.specs.Prelude.{◌≡◌, true, ◌++◌, ◌<◌, length, replicate, take};
ghost use Rattle.limits.specs as limits;
ghost use Rattle.waiting.specs.Waiting.{blank, none_wait};
ghost use Rattle.protocol.specs.Steps.{machine};
ghost use Rattle.turns.specs.Promises.{goes_on, turned, stands_as, Stands};
ghost use Rattle.runs.specs.Runs.{lines_on, lines_of, joined, printed, holding};
ghost use Rattle.runs.specs.Promises.{first_piece, next_piece, InUse, to_print};

use limits::WAITING;
use turns::{Ran, Run};
use waiting::Packet;

// Bytes of a piece of the output, and the last place of it that has room for the longest line.
pub const PIECE: usize = 65536;

const LAST_LINE: usize = 65389;

// How a run stands after some records, the place after their lines, and the places of the packets.
#[derive(Clone, Copy)]
pub struct Piece {
    pub run: Run,
    pub used: usize,
    pub packets: [Packet; WAITING],
}

// Places for the packets, all blank.
pub fn blank_places() -> [Packet; WAITING]
    ensures { result ≡ replicate limits.waiting blank }
{
    [Packet::blank(); WAITING]
}

// The records that follow, until the run is over or the place is past `stop`, with places for the packets that are handed in and handed back.
pub fn print_piece(
    input: &[u8],
    run: Run,
    packets: [Packet; WAITING],
    switch: &mut [u32; switch::CELLS],
    store: &mut [u32; store::CELLS],
    opens: &mut [u32; operations::CELLS],
    out: &mut [u8],
    used: usize,
    stop: usize,
) -> Piece
    ensures { Stands (record { run = result.run; used = result.used }) switch.new store.new opens.new result.packets out.new
        (turned run.left stop input.now (stands_as run switch.old store.old opens.old packets) out.old used) }
{
    let mut row = packets;
    let ran = replay::records(input, run, switch, store, opens, &mut row, out, used, stop);
    Piece {
        run: ran.run,
        used: ran.used,
        packets: row,
    }
}

// Everything that the run program prints for an input, as far as whole lines have room in the buffer. How many bytes it has.
pub fn print(input: &[u8], out: &mut [u8]) -> usize
    ensures { (result ≡ length (printed input.now)) × (out.new ≡ holding out.old (lines_of input.now)) }
{
    let mut switch = [0; switch::CELLS];
    let mut store = [0; store::CELLS];
    let mut opens = [0; operations::CELLS];
    let ran = turns::first(input, &mut switch, &mut store, &mut opens, out);
    let all = print_piece(
        input,
        ran.run,
        blank_places(),
        &mut switch,
        &mut store,
        &mut opens,
        out,
        ran.used,
        turns::LAST_PLACE,
    );
    all.used
}

// ---- the output in pieces

// Whether a run has something to print.
pub fn has_more(run: Run) -> bool
    ensures { result ≡ goes_on run.over run.left 0 0 }
{
    turns::goes_on(run.over, run.left, 0, 0)
}

// The first piece of the output of an input, up to where the longest line may have no room, or the run is over. What is still to be printed stands in the run that is handed
// back.
pub fn first_piece(
    input: &[u8],
    switch: &mut [u32; switch::CELLS],
    store: &mut [u32; store::CELLS],
    opens: &mut [u32; operations::CELLS],
    out: &mut [u8; PIECE],
) -> Piece
    ensures { InUse result.used out.new
        × (take result.used out.new ++ to_print input.now result.run switch.new store.new opens.new result.packets
        ≡ joined (lines_on (machine switch.old store.old opens.old (none_wait (replicate limits.waiting blank))) input.now))
        × Stands (record { run = result.run; used = result.used }) switch.new store.new opens.new result.packets out.new
        (first_piece (machine switch.old store.old opens.old (none_wait (replicate limits.waiting blank))) input.now out.old) }
{
    let ran = turns::first(input, switch, store, opens, out);
    print_piece(
        input,
        ran.run,
        blank_places(),
        switch,
        store,
        opens,
        out,
        ran.used,
        LAST_LINE,
    )
}

// The next piece, at the start of the buffer.
pub fn next_piece(
    input: &[u8],
    run: Run,
    packets: [Packet; WAITING],
    switch: &mut [u32; switch::CELLS],
    store: &mut [u32; store::CELLS],
    opens: &mut [u32; operations::CELLS],
    out: &mut [u8; PIECE],
) -> Piece
    ensures { InUse result.used out.new
        × (take result.used out.new ++ to_print input.now result.run switch.new store.new opens.new result.packets
        ≡ to_print input.now run switch.old store.old opens.old packets)
        × (goes_on run.over run.left 0 0 ≡ true → result.run.left < run.left)
        × Stands (record { run = result.run; used = result.used }) switch.new store.new opens.new result.packets out.new
        (next_piece run switch.old store.old opens.old packets input.now out.old) }
{
    print_piece(input, run, packets, switch, store, opens, out, 0, LAST_LINE)
}

// Room for the longest input and one byte more, which tells an input that is too long.
pub fn input_room() -> [u8; 65537]
    ensures { (result ≡ replicate 65537 0) × (65537 ≡ length result) }
{
    [0; 65537]
}
