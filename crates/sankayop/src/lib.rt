// Each public call with its answer in one number, as the C interface gives it: `sankayop_c` exports these calls.
#![tactic(auto)]

ghost use Rattle.std.specs.Prelude.{◌≡◌, [], ◌∷◌, length};
ghost use Rattle.limits.specs.Refusals.{number_of};
ghost use Rattle.limits.specs.Said.{Said, told, refused};
ghost use Rattle.map.specs.declared.Side.TheVariants.{Forward, Backward};
ghost use Rattle.text.specs.Text.{read_text, map_after};
ghost use Rattle.bench.specs.Calls.{open_said, open_words, turn_values, turn_said, turn_words};
ghost use Rattle.bench.specs.Areas.{area_said, area_mask};
ghost use Rattle.bench.specs.Routes.{route_said, route_buffer};
ghost use Rattle.sankayop.specs.Packed.{number, first, second, packed, Packs, said_either};

use bench::Turn;
use limits::Refusal;
use text::{Refused, Size};

// ---- the answers in one number

// What an answer says: its number of refusal, 0 for none, and its two values, of which those that it does not have are 0.
trait Says {
    ghost says: { Self → Said };

    fn parts(self) -> (u32, u32, u32)
        ensures { (result.0 ≡ number (says self)) × (result.1 ≡ first (says self)) × (result.2 ≡ second (says self)) };
}

impl Says for () {
    ghost says = { λ _. told [] };

    fn parts(self) -> (u32, u32, u32) {
        (0, 0, 0)
    }
}

// The length of a route.
impl Says for u32 {
    ghost says = { λ length. told (length ∷ []) };

    fn parts(self) -> (u32, u32, u32) {
        (0, self, 0)
    }
}

impl Says for Size {
    ghost says = { λ size. told (size.n ∷ size.m ∷ []) };

    fn parts(self) -> (u32, u32, u32) {
        (0, self.n, self.m)
    }
}

impl Says for Turn {
    ghost says = { λ turn. told (turn_values turn) };

    fn parts(self) -> (u32, u32, u32) {
        match self {
            Turn::Settled(crossing, distance) => (0, crossing, distance),
            Turn::Done => (0, 0, 0),
        }
    }
}

impl Says for Refusal {
    ghost says = { λ refusal. refused (number_of refusal) [] };

    fn parts(self) -> (u32, u32, u32) {
        (self.number(), 0, 0)
    }
}

// A refusal of the reader, with its line.
impl Says for Refused {
    ghost says = { λ it. refused (number_of it.refusal) (it.line ∷ []) };

    fn parts(self) -> (u32, u32, u32) {
        (self.refusal.number(), self.line, 0)
    }
}

impl<T: Says, E: Says> Says for Result<T, E> {
    ghost says = { said_either T.says E.says };

    fn parts(self) -> (u32, u32, u32) {
        match self {
            Ok(told) => told.parts(),
            Err(refusal) => refusal.parts(),
        }
    }
}

// The three in one number.
#[tactic(auto, unfolding(crate::specs::Packed::packed))]
fn pack<A: Says>(answer: A) -> u64
    requires { Packs (A.says answer) }
    ensures { result ≡ packed (A.says answer) }
{
    let (number, first, second) = answer.parts();
    u64::from(number) * 72057594037927936 + u64::from(first) * 268435456 + u64::from(second)
}

// ---- the calls

// Reads a text into the map.
pub fn sankayop_read(text: &[u8], map: &mut [u32]) -> u64
    ensures answer { result ≡ packed (read_text (length map.old) text.now) }
    ensures map { map.new ≡ map_after text.now map.old }
{
    pack(text::read(text, map))
}

// Opens the bench for one order.
#[tactic(auto, using(crate::proofs::Packs::packs_by, crate::proofs::Packs::open_packs))]
pub fn sankayop_open(
    map: &[u32],
    n: u32,
    m: u32,
    start: u32,
    target: u32,
    stretch: u32,
    bench: &mut [u32],
) -> u64
    ensures answer { result ≡ packed (open_said map.now n m start target stretch bench.old) }
    ensures bench { bench.new ≡ open_words map.now n m start target stretch bench.old }
{
    pack(bench::open_bench(map, n, m, start, target, stretch, bench))
}

// One turn of the forward half.
pub fn sankayop_forward(map: &[u32], n: u32, m: u32, bench: &mut [u32]) -> u64
    ensures answer { result ≡ packed (turn_said Forward map.now n m bench.old) }
    ensures bench { bench.new ≡ turn_words Forward map.now n m bench.old }
{
    pack(bench::forward(map, n, m, bench))
}

// One turn of the backward half.
pub fn sankayop_backward(map: &[u32], n: u32, m: u32, bench: &mut [u32]) -> u64
    ensures answer { result ≡ packed (turn_said Backward map.now n m bench.old) }
    ensures bench { bench.new ≡ turn_words Backward map.now n m bench.old }
{
    pack(bench::backward(map, n, m, bench))
}

// Fills the first n bytes of the mask: 0 unmarked, 1 in B only, 2 also in BL.
#[tactic(auto, using(crate::proofs::Packs::packs_by, crate::proofs::Packs::area_packs))]
pub fn sankayop_area(
    map: &[u32],
    n: u32,
    m: u32,
    bench: &[u32],
    locality: u32,
    mask: &mut [u8],
) -> u64
    ensures answer { result ≡ packed (area_said map.now n m bench.now locality mask.old) }
    ensures mask { mask.new ≡ area_mask map.now n m bench.now locality mask.old }
{
    pack(bench::area(map, n, m, bench, locality, mask))
}

// Fills the buffer with the route through a marked crossing.
pub fn sankayop_route(
    map: &[u32],
    n: u32,
    m: u32,
    bench: &[u32],
    crossing: u32,
    route: &mut [u32],
) -> u64
    ensures answer { result ≡ packed (route_said map.now n m bench.now crossing route.old) }
    ensures route { route.new ≡ route_buffer map.now n m bench.now crossing route.old }
{
    pack(bench::fill_route(map, n, m, bench, crossing, route))
}
