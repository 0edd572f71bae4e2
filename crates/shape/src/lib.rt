// The layout of a bench, and rules 1, 3 and 4 of a turn for one crossing, with the one comparison with stretch times optimum.
#![tactic(auto)]

ghost use Rattle.std.specs.Prelude.{◌≡◌, ◌≤◌, length};
ghost use Rattle.limits.specs.Limits.{Between};
ghost use Rattle.shape.specs.Bench.{half, root, half_at, marks_at, bench_words, parse};
ghost use Rattle.shape.specs.Rules.{within as within_of, beyond as beyond_of, found as found_of, mark_by, mark};

use half::{Half, SETTLED};
// An unknown optimum is a word of the lent layout, which may also hold a damaged one, so it stays that word and is no Option.
use limits::UNKNOWN;
use map::Side;

// The two halves of a bench as they are lent to be read.
#[derive(Clone, Copy)]
pub struct Halves<'a> {
    pub forward: Half<'a>,
    pub backward: Half<'a>,
    ghost same_n: { backward.n ≡ forward.n },
}

impl<'a> Halves<'a> {
    // Rule 4 for crossing v.
    #[tactic(auto, unfolding(crate::specs::Rules::mark))]
    pub fn mark(&self, stretch: u32, optimum: u32, v: usize) -> u32
        requires { Between 1 self.now.forward.n v }
        ensures { result ≡ mark self.now.forward.n stretch optimum self.now.forward.words.now self.now.backward.words.now v }
    {
        let from = self.forward.entry(v);
        let to = self.backward.entry(v);
        mark_of(stretch, optimum, from.state, to.state, from.dist, to.dist)
    }
}

// A bench for n crossings as it is lent to be read.
#[derive(Clone, Copy)]
pub struct Bench<'a> {
    pub words: &'a [u32],
    pub n: usize,
    ghost few: { n ≤ 4096 },
    ghost room: { bench_words n ≤ length words.now },
}

impl<'a> Bench<'a> {
    // The half of a side.
    #[tactic(auto, using(crate::proofs::Rounds::half_part))]
    pub fn half(&self, side: Side) -> Half<'a>
        ensures words { result.words.now ≡ half side (parse self.now.n self.now.words.now) }
        ensures n { result.n ≡ self.now.n }
    {
        let a = half_at(side, self.n);
        let e = a + 3 * self.n;
        Half {
            words: &self.words[a..e],
            n: self.n,
        }
    }

    // Both halves.
    pub fn halves(&self) -> Halves<'a>
        ensures forward { result.forward.words.now ≡ (parse self.now.n self.now.words.now).forward }
        ensures backward { result.backward.words.now ≡ (parse self.now.n self.now.words.now).backward }
        ensures n { result.forward.n ≡ self.now.n }
    {
        Halves {
            forward: self.half(Side::Forward),
            backward: self.half(Side::Backward),
        }
    }

    #[tactic(auto, using(crate::proofs::Rounds::marks_part))]
    pub fn marks(&self) -> &'a [u32]
        ensures marks { result.now ≡ (parse self.now.n self.now.words.now).marks }
        ensures room { length result.now ≡ self.now.n }
    {
        &self.words[marks_at(self.n)..bench_words(self.n)]
    }

    // The crossing at which the half of a side opened.
    #[tactic(auto, unfolding(crate::specs::Bench::parse))]
    pub fn root(&self, side: Side) -> u32
        ensures { result ≡ root side (parse self.now.n self.now.words.now) }
    {
        match side {
            Side::Forward => self.words[2],
            Side::Backward => self.words[3],
        }
    }

    #[tactic(auto, unfolding(crate::specs::Bench::parse))]
    pub fn stretch(&self) -> u32
        ensures { result ≡ (parse self.now.n self.now.words.now).stretch }
    {
        self.words[4]
    }

    #[tactic(auto, unfolding(crate::specs::Bench::parse))]
    pub fn optimum(&self) -> u32
        ensures { result ≡ (parse self.now.n self.now.words.now).optimum }
    {
        self.words[5]
    }
}

// Where the words of a half begin.
pub fn half_at(side: Side, n: usize) -> usize
    requires { n ≤ 4096 }
    ensures { result ≡ half_at side n }
{
    match side {
        Side::Forward => 6,
        Side::Backward => 6 + 3 * n,
    }
}

// Where the marks begin.
pub fn marks_at(n: usize) -> usize
    requires { n ≤ 4096 }
    ensures { result ≡ marks_at n }
{
    6 + 6 * n
}

// How many words a bench has.
pub fn bench_words(n: usize) -> usize
    requires { n ≤ 4294967295 }
    ensures { result ≡ bench_words n }
{
    6 + 7 * n
}

// The one comparison with stretch times optimum: neither product passes 64 bits.
#[tactic(auto, unfolding(crate::specs::Rules::within))]
pub fn within(stretch: u32, optimum: u32, a: u32, b: u32) -> bool
    ensures { result ≡ within_of stretch optimum a b }
{
    let sum = u64::from(a) + u64::from(b);
    1000 * sum <= u64::from(stretch) * u64::from(optimum)
}

// Rule 1: whether a half whose nearest open crossing is at distance d is done.
#[tactic(auto, unfolding(crate::specs::Rules::beyond, crate::specs::Rules::known))]
pub fn beyond(stretch: u32, optimum: u32, d: u32) -> bool
    ensures { result ≡ beyond_of stretch optimum d }
{
    optimum != UNKNOWN && !within(stretch, optimum, d, 0)
}

// Rule 3: the optimum after x is settled at distance d, where the other half's root is the goal.
#[tactic(auto, unfolding(crate::specs::Rules::found, crate::specs::Rules::known))]
pub fn found(goal: u32, x: u32, d: u32, optimum: u32) -> u32
    ensures { result ≡ found_of goal x d optimum }
{
    if x == goal && optimum == UNKNOWN {
        d
    } else {
        optimum
    }
}

// Rule 4 from the states s and t and the distances a and b of a crossing in the two halves.
#[tactic(auto, unfolding(crate::specs::Rules::known))]
pub fn mark_of(stretch: u32, optimum: u32, s: u32, t: u32, a: u32, b: u32) -> u32
    ensures { result ≡ mark_by stretch optimum s t a b }
{
    let both = s == SETTLED && t == SETTLED;
    u32::from(optimum != UNKNOWN && both && within(stretch, optimum, a, b))
}
