// Rules 1 and 4 on a bench: the crossing that a half settles next, and the marks.
#![tactic(auto)]

ghost use Rattle.std.specs.Prelude.{◌≡◌, ◌≤◌, true, false, length, get_or, IfSome, IfNone};
ghost use Rattle.limits.specs.Limits.{Between};
ghost use Rattle.shape.specs.Bench.{bench_words, words, parse};
ghost use Rattle.shape.specs.Rules.{next as next_of, done, remarked};

use map::Side;
use shape::Bench;

// Rule 1: the crossing that the half of a side settles next, or none where the half is done.
#[tactic(auto, using(crate::proofs::Laws::done_none, crate::proofs::Laws::done_by, crate::proofs::Laws::next_is))]
pub fn next(bench: &Bench, side: Side) -> Option<usize>
    requires { get_or bench.now.words.now 0 0 ≡ bench.now.n }
    ensures none { IfNone result (done side (parse bench.now.n bench.now.words.now) ≡ true) }
    ensures some { IfSome result (λ x. Between 1 bench.now.n x × (done side (parse bench.now.n bench.now.words.now) ≡ false) × (next_of side (parse bench.now.n bench.now.words.now) ≡ x)) }
{
    let half = bench.half(side);
    let x = half.nearest_open()?;
    if shape::beyond(bench.stretch(), bench.optimum(), half.entry(x).dist) {
        return None;
    }
    Some(x)
}

// Whether the half of a side settles no further crossing.
pub fn is_done(bench: &Bench, side: Side) -> bool
    requires { get_or bench.now.words.now 0 0 ≡ bench.now.n }
    ensures { result ≡ done side (parse bench.now.n bench.now.words.now) }
{
    next(bench, side).is_none()
}

// Rule 4 over all crossings. Stretch and optimum are read before the loop, which writes into the same words.
#[tactic(auto, using(shape::proofs::Marks::marks_next, shape::proofs::Marks::marks_end), unfolding(shape::specs::Bench::parse))]
pub fn mark_all(bench: &mut [u32], n: usize)
    requires { (n ≤ 4096) × (bench_words n ≤ length bench.old) × (get_or bench.old 0 0 ≡ n) }
    ensures { bench.new ≡ words (remarked (parse n bench.old)) }
{
    let before = Bench { words: bench, n };
    let stretch = before.stretch();
    let optimum = before.optimum();
    let marks = shape::marks_at(n);
    for v in 1..=n {
        let mark = Bench { words: bench, n }.halves().mark(stretch, optimum, v);
        bench[marks + (v - 1)] = mark;
    }
}
