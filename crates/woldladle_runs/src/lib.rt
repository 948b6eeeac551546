// Whole runs for callers in C and Rust: bindings/c/woldladle.h.
// By hand: the C interface has a length or minus a refusal in one signed number, where the crates below have a Result.
#![tactic(auto)]

ghost use Rattle.std.specs.Prelude.{◌≡◌, length};
ghost use Rattle.draws.specs.{draw_answer, draw_buffer};
ghost use Rattle.runs.specs.Runs.{lines_of, printed, holding};
ghost use Rattle.shortening.specs.Shortening.{shorten_answer, shorten_buffer};

// Everything that the run program prints for an input, as far as whole lines have room in the buffer. How many bytes it has.
#[unsafe(no_mangle)]
pub extern "C" fn woldladle_run(input: &[u8], out: &mut [u8]) -> usize
    ensures { (result ≡ length (printed input.now)) × (out.new ≡ holding out.old (lines_of input.now)) }
{
    runs::print(input, out)
}

// The run of n replicas and so many steps that the seed draws, at the start of the buffer; every byte beyond is as it was. How many bytes it has, or minus the refusal, which
// leaves the buffer as it was.
#[unsafe(no_mangle)]
pub extern "C" fn woldladle_draw(seed: u32, n: u64, steps: u64, out: &mut [u8]) -> i64
    ensures { (result ≡ draw_answer (length out.old) seed n steps) × (out.new ≡ draw_buffer out.old seed n steps) }
{
    match draws::run(seed, n, steps, out) {
        Ok(size) => size as i64,
        Err(error) => -i64::from(error.number()),
    }
}

// A shorter run whose last record is refused with the same number, at the start of the buffer; every byte beyond is as it was. How many bytes it has, or minus the refusal, which
// leaves the buffer as it was.
#[unsafe(no_mangle)]
pub extern "C" fn woldladle_shorten(input: &[u8], out: &mut [u8]) -> i64
    ensures { (result ≡ shorten_answer (length out.old) input.now) × (out.new ≡ shorten_buffer out.old input.now) }
{
    match shortening::shorten(input, out) {
        Ok(length) => length as i64,
        Err(refusal) => -i64::from(refusal.number()),
    }
}
