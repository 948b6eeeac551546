// The run program: reads records from standard input and prints a line for each, in pieces of 64 KiB.
#![tactic(auto)]

use std::io;

// By hand: a loop of its own, since the run itself says whether more is to be printed.
fn print(rt: &impl Print, input: &[u8]) -> io::Result<()> {
    let mut switch = [0; switch::CELLS];
    let mut store = [0; store::CELLS];
    let mut opens = [0; operations::CELLS];
    let mut out = [0; runs::PIECE];
    let mut piece = runs::first_piece(input, &mut switch, &mut store, &mut opens, &mut out);
    rt.write_all(&out[..piece.used])?;
    while runs::has_more(piece.run) {
        let packets = piece.packets;
        piece = runs::next_piece(
            input,
            piece.run,
            packets,
            &mut switch,
            &mut store,
            &mut opens,
            &mut out,
        );
        rt.write_all(&out[..piece.used])?;
    }
    Ok(())
}

fn main(rt: HostRuntime) -> io::Result<()> {
    let mut input = runs::input_room();
    let length = reading::read_full(&mut rt.reader(), &mut input)?;
    print(&rt, &input[..length])
}
