// The calls on a bench: its opening and its turns, its area and its routes.
#![tactic(auto)]

ghost use Rattle.std.specs.Prelude.{◌≡◌, length};
ghost use Rattle.limits.specs.Refusals.{fault_of};
ghost use Rattle.map.specs.declared.Side.TheVariants.{Forward, Backward};
ghost use Rattle.area.specs.Finished.{route_fault};
ghost use Rattle.bench.specs.Calls.{said_opening, order_fault, open_fault, open_said, open_words, said_turn, turn_said, turn_words};
ghost use Rattle.bench.specs.Areas.{said_filling, area_said, area_mask};
ghost use Rattle.bench.specs.Routes.{said_routing, route_said, route_part, route_buffer};

use limits::Refusal;
use map::Side;

// What a turn answers: the crossing settled and its distance, or that the half is done.
#[derive(Clone, Copy, Debug, PartialEq, Eq)]
pub enum Turn {
    Settled(u32, u32),
    Done,
}

// ---- opening

// An order on a map of n crossings.
#[tactic(auto, using(limits::proofs::Refused::checks), unfolding(crate::specs::Calls::order_fault))]
fn check_order(n: u32, start: u32, target: u32, stretch: u32) -> Result<(), Refusal>
    ensures { fault_of result ≡ order_fault n start target stretch }
{
    limits::check_crossing(n, start)?;
    limits::check_crossing(n, target)?;
    limits::check_stretch(stretch)
}

#[tactic(auto, using(limits::proofs::Refused::checks), unfolding(crate::specs::Calls::open_fault))]
fn check_open(
    map: &[u32],
    n: u32,
    m: u32,
    start: u32,
    target: u32,
    stretch: u32,
    bench: &[u32],
) -> Result<(), Refusal>
    ensures { fault_of result ≡ open_fault map.now n m start target stretch bench.now }
{
    map::check(map, n, m)?;
    check_order(n, start, target, stretch)?;
    limits::check_room(shape::bench_words(n as usize), bench.len())
}

// Opens the bench for one order.
#[tactic(auto, using(crate::proofs::Laws::answers), unfolding(crate::specs::Calls::open_said, crate::specs::Calls::open_words))]
pub fn open_bench(
    map: &[u32],
    n: u32,
    m: u32,
    start: u32,
    target: u32,
    stretch: u32,
    bench: &mut [u32],
) -> Result<(), Refusal>
    ensures answer { said_opening result ≡ open_said map.now n m start target stretch bench.old }
    ensures bench { bench.new ≡ open_words map.now n m start target stretch bench.old }
{
    check_open(map, n, m, start, target, stretch, bench)?;
    writing::write_opened(bench, n, m, start, target, stretch);
    Ok(())
}

// ---- one turn

// One turn of the half of a side.
#[tactic(auto, using(crate::proofs::Laws::answers, area::proofs::Laws::first_word), unfolding(crate::specs::Calls::turn_said, crate::specs::Calls::turn_words, crate::specs::Calls::turn_fault))]
pub fn take_turn(
    map: &[u32],
    n: u32,
    m: u32,
    side: Side,
    bench: &mut [u32],
) -> Result<Turn, Refusal>
    ensures answer { said_turn result ≡ turn_said side map.now n m bench.old }
    ensures bench { bench.new ≡ turn_words side map.now n m bench.old }
{
    let lent = shaped::check_lent(map, n, m, Ok(()), bench)?;
    let Some(x) = rules::next(&lent.bench, side) else {
        return Ok(Turn::Done);
    };
    let d = lent.bench.half(side).entry(x).dist;
    // the roads alone: the bench is lent on to be written
    let roads = lent.roads;
    writing::take(&roads, side, x, d, bench);
    Ok(Turn::Settled(x as u32, d))
}

// One turn of the forward half. The C interface has a call for each half, which names no side.
pub fn forward(map: &[u32], n: u32, m: u32, bench: &mut [u32]) -> Result<Turn, Refusal>
    ensures answer { said_turn result ≡ turn_said Forward map.now n m bench.old }
    ensures bench { bench.new ≡ turn_words Forward map.now n m bench.old }
{
    take_turn(map, n, m, Side::Forward, bench)
}

// One turn of the backward half.
pub fn backward(map: &[u32], n: u32, m: u32, bench: &mut [u32]) -> Result<Turn, Refusal>
    ensures answer { said_turn result ≡ turn_said Backward map.now n m bench.old }
    ensures bench { bench.new ≡ turn_words Backward map.now n m bench.old }
{
    take_turn(map, n, m, Side::Backward, bench)
}

// ---- area

// Fills the first n bytes of the mask: 0 unmarked, 1 in B only, 2 also in BL.
#[tactic(auto, using(crate::proofs::Laws::answers), unfolding(crate::specs::Areas::area_said, crate::specs::Areas::area_mask))]
pub fn area(
    map: &[u32],
    n: u32,
    m: u32,
    bench: &[u32],
    locality: u32,
    mask: &mut [u8],
) -> Result<(), Refusal>
    ensures answer { said_filling result ≡ area_said map.now n m bench.now locality mask.old }
    ensures mask { mask.new ≡ area_mask map.now n m bench.now locality mask.old }
{
    let finished = area::check_area(map, n, m, bench, locality, mask.len())?;
    finished.fill_area(locality, mask);
    Ok(())
}

// ---- route

// Fills the buffer with the route through a marked crossing; answers its length.
#[tactic(auto, using(crate::proofs::Laws::answers), unfolding(crate::specs::Routes::route_said, crate::specs::Routes::route_buffer))]
pub fn fill_route(
    map: &[u32],
    n: u32,
    m: u32,
    bench: &[u32],
    crossing: u32,
    buffer: &mut [u32],
) -> Result<u32, Refusal>
    ensures answer { said_routing result ≡ route_said map.now n m bench.now crossing buffer.old }
    ensures buffer { buffer.new ≡ route_buffer map.now n m bench.now crossing buffer.old }
{
    let finished = area::check_route(map, n, m, bench, crossing, buffer.len())?;
    let length = finished.write_route(crossing, buffer);
    Ok(length as u32)
}

// The companion of the route call: whether it would refuse.
pub fn route_refusal(
    map: &[u32],
    n: u32,
    m: u32,
    bench: &[u32],
    crossing: u32,
    buffer: &[u32],
) -> Result<(), Refusal>
    ensures { fault_of result ≡ route_fault map.now n m bench.now crossing (length buffer.now) }
{
    area::check_route(map, n, m, bench, crossing, buffer.len())?;
    Ok(())
}

// Hands back the filled part of the buffer; no words on a refusal. What the buffer ends as is not said: the check proves the word for that,
// `Lends`, of a whole field, an element or a call's result, and of no part of a slice.
pub fn route<'a>(
    map: &[u32],
    n: u32,
    m: u32,
    bench: &[u32],
    crossing: u32,
    buffer: &'a mut [u32],
) -> &'a mut [u32]
    ensures { (result.now ≡ route_part map.now n m bench.now crossing buffer.old) × (result.ref_ptr ≡ buffer.entry.ref_ptr) }
{
    let filled = fill_route(map, n, m, bench, crossing, buffer).unwrap_or(0);
    &mut buffer[..filled as usize]
}
