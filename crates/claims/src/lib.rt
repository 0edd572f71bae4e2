// Ties the demands to the public calls: a bench is opened, and turns are taken in the order of a schedule.
#![tactic(auto)]

ghost use Rattle.std.specs.Prelude.{◌≡◌};
ghost use Rattle.bench.specs.Calls.{said_opening, open_said};
ghost use Rattle.demands.specs.Calls.{side_of, turns_words, mixture_words};

use limits::Refusal;
use map::Side;

// The half that a byte of a schedule stands for: forward for 0, else backward. Any byte will do, so that no schedule is refused.
fn side_of(byte: u8) -> Side
    ensures { result ≡ side_of byte }
{
    if byte == 0 {
        Side::Forward
    } else {
        Side::Backward
    }
}

// A turn for each byte of the schedule; one that is refused changes nothing.
fn take_turns(map: &[u32], n: u32, m: u32, bench: &mut [u32], schedule: &[u8])
    ensures { bench.new ≡ turns_words map.now n m schedule.now bench.old }
{
    for byte in schedule {
        let _ = bench::take_turn(map, n, m, side_of(*byte), bench);
    }
}

// Opens the bench, and takes a turn for each byte of the schedule.
pub fn mixture(
    map: &[u32],
    n: u32,
    m: u32,
    start: u32,
    target: u32,
    stretch: u32,
    bench: &mut [u32],
    schedule: &[u8],
) -> Result<(), Refusal>
    ensures answer { said_opening result ≡ open_said map.now n m start target stretch bench.old }
    ensures bench { bench.new ≡ mixture_words map.now n m start target stretch schedule.now bench.old }
{
    bench::open_bench(map, n, m, start, target, stretch, bench)?;
    take_turns(map, n, m, bench, schedule);
    Ok(())
}
