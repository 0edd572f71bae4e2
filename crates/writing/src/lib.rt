// The writing of an opened bench and of a settled turn. Each half is a part that is lent on to be written.
#![tactic(auto)]

ghost use Rattle.std.specs.Prelude.{◌≡◌, ◌≤◌, length, drop, replicate};
ghost use Rattle.limits.specs.Limits.{Between};
ghost use Rattle.half.specs.Half.{unknown, dist, open_half, settled_at};
ghost use Rattle.shape.specs.Bench.{half as half_of, bench_words, words, parse, opened as opened_bench, WellShaped};
ghost use Rattle.shape.specs.Parts.{with_head, with_half, with_marks};
ghost use Rattle.shape.specs.Rules.{settled_by};
ghost use Rattle.writing.specs.Writing.{unmarked};

use limits::UNKNOWN;
use map::{Roads, Side};
use shape::Bench;

// ---- opening

#[tactic(auto, using(shape::proofs::Parts::head_written))]
fn write_head(bench: &mut [u32], n: u32, m: u32, start: u32, target: u32, stretch: u32)
    requires { bench_words n ≤ length bench.old }
    ensures { bench.new ≡ words (with_head n m start target stretch unknown (parse n bench.old)) }
{
    bench[0] = n;
    bench[1] = m;
    bench[2] = start;
    bench[3] = target;
    bench[4] = stretch;
    bench[5] = UNKNOWN;
}

#[tactic(auto, using(shape::proofs::Parts::half_back))]
fn open_at(bench: &mut [u32], n: usize, side: Side, root: usize)
    requires { (n ≤ 4096) × Between 1 n root × (bench_words n ≤ length bench.old) }
    ensures { bench.new ≡ words (with_half side (open_half n root) (parse n bench.old)) }
{
    let a = shape::half_at(side, n);
    let e = a + 3 * n;
    half::open_half(&mut bench[a..e], n, root);
}

#[tactic(auto, using(shape::proofs::Parts::marks_back))]
fn clear_marks(bench: &mut [u32], n: usize)
    requires { (n ≤ 4096) × (bench_words n ≤ length bench.old) }
    ensures { bench.new ≡ words (with_marks (replicate n 0) (parse n bench.old)) }
{
    let a = shape::marks_at(n);
    let e = a + n;
    bench[a..e].fill(0);
}

// The whole of an opened bench; the words past it stay.
#[tactic(auto, using(crate::proofs::Laws::opened_by))]
pub fn write_opened(bench: &mut [u32], n: u32, m: u32, start: u32, target: u32, stretch: u32)
    requires { (n ≤ 4096) × Between 1 n start × Between 1 n target × (bench_words n ≤ length bench.old) }
    ensures { bench.new ≡ words (opened_bench n m start target stretch (drop (bench_words n) bench.old)) }
{
    write_head(bench, n, m, start, target, stretch);
    let crossings = n as usize;
    open_at(bench, crossings, Side::Forward, start as usize);
    open_at(bench, crossings, Side::Backward, target as usize);
    clear_marks(bench, crossings);
}

// ---- a turn

// Rule 2 on the half of a side.
#[tactic(auto, using(crate::proofs::Laws::settled_by_lem))]
fn settle_half(roads: &Roads, side: Side, x: usize, bench: &mut [u32])
    requires { Between 1 roads.now.n x × (bench_words roads.now.n ≤ length bench.old) }
    ensures { let b = parse roads.now.n bench.old in bench.new ≡ words (with_half side (settled_at side roads.now.map.now roads.now.n roads.now.m x (half_of side b)) b) }
{
    let n = roads.n as usize;
    let a = shape::half_at(side, n);
    let e = a + 3 * n;
    half::settle(&mut bench[a..e], roads, side, x);
}

// Rules 2 and 3 for x, settled at distance d: the optimum is known where x is the crossing at which the other half opened.
#[tactic(auto, using(crate::proofs::Laws::unmarked_by))]
fn settle_at(roads: &Roads, side: Side, x: usize, d: u32, bench: &mut [u32])
    requires { Between 1 roads.now.n x × (bench_words roads.now.n ≤ length bench.old) × WellShaped roads.now.n roads.now.m (parse roads.now.n bench.old) × (d ≡ dist (half_of side (parse roads.now.n bench.old)) x) }
    ensures { bench.new ≡ words (unmarked side roads.now.map.now x (parse roads.now.n bench.old)) }
{
    settle_half(roads, side, x, bench);
    let settled = Bench {
        words: bench,
        n: roads.n as usize,
    };
    let goal = settled.root(side.other());
    let optimum = shape::found(goal, x as u32, d, settled.optimum());
    bench[5] = optimum;
}

// Rules 2, 3 and 4 for x, settled at distance d.
#[tactic(auto, using(crate::proofs::Laws::first_word, crate::proofs::Laws::settled_marked))]
pub fn take(roads: &Roads, side: Side, x: usize, d: u32, bench: &mut [u32])
    requires { Between 1 roads.now.n x × (bench_words roads.now.n ≤ length bench.old) × WellShaped roads.now.n roads.now.m (parse roads.now.n bench.old) × (d ≡ dist (half_of side (parse roads.now.n bench.old)) x) }
    ensures { bench.new ≡ words (settled_by side roads.now.map.now x (parse roads.now.n bench.old)) }
{
    settle_at(roads, side, x, d, bench);
    rules::mark_all(bench, roads.n as usize);
}
