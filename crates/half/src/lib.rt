// One half of a bench: n distances, n link numbers and n states, in a part lent on to be written.
#![tactic(auto)]

ghost use Rattle.std.specs.Prelude.{◌≡◌, ◌*◌, ◌+◌, ◌≤◌, length, IfSome};
ghost use Rattle.limits.specs.Limits.{Between};
ghost use Rattle.map.specs.Walk.{near as near_of, far as far_of};
ghost use Rattle.half.specs.Half.{or_zero, ceiling, entry as entry_of, put, open_half, nearer as nearer_of, nearest_open, offered, relaxed, settled_at};

use limits::{CEILING, UNKNOWN};
use map::{Roads, Side};

// The states of a crossing: words and no enum, as the C interface lends them. A damaged bench may hold any word there, and an entry is to tell which.
pub const UNSEEN: u32 = 0;

pub const OPEN: u32 = 1;

pub const SETTLED: u32 = 2;

// What a half holds of one crossing, in the words that the C interface lends: link number 0 stands for none.
#[derive(Clone, Copy, Debug, PartialEq, Eq)]
pub struct Entry {
    pub dist: u32,
    pub link: u32,
    pub state: u32,
}

// One half as it is lent to be read.
#[derive(Clone, Copy)]
pub struct Half<'a> {
    pub words: &'a [u32],
    pub n: usize,
    ghost room: { length words.now ≡ 3 * n },
}

impl<'a> Half<'a> {
    // What it holds of crossing v.
    #[tactic(auto, unfolding(crate::specs::Half::dist, crate::specs::Half::link, crate::specs::Half::state))]
    pub fn entry(&self, v: usize) -> Entry
        requires { Between 1 self.now.n v }
        ensures { result ≡ entry_of self.now.n self.now.words.now v }
    {
        let at = v - 1;
        Entry {
            dist: self.words[at],
            link: self.words[self.n + at],
            state: self.words[2 * self.n + at],
        }
    }

    // The nearer of v, if it is open, and the best found before, which stays on a tie.
    #[tactic(auto, unfolding(crate::specs::Half::nearer))]
    fn nearer(&self, v: usize, best: Option<usize>) -> Option<usize>
        requires { Between 1 self.now.n v × IfSome best (λ b. Between 1 self.now.n b) }
        ensures crossing { or_zero result ≡ nearer_of self.now.n self.now.words.now v (or_zero best) }
        ensures found { IfSome result (λ b. Between 1 self.now.n b) }
    {
        let e = self.entry(v);
        if e.state != OPEN {
            return best;
        }
        match best {
            Some(b) if self.entry(b).dist <= e.dist => best,
            _ => Some(v),
        }
    }

    // Rule 1: the open crossing of least distance, the lower number on a tie.
    #[tactic(auto, using(crate::proofs::Folds::up_to_next), unfolding(crate::specs::Fold::up_to, crate::specs::Half::nearest_open))]
    pub fn nearest_open(&self) -> Option<usize>
        ensures crossing { or_zero result ≡ nearest_open self.now.n self.now.words.now }
        ensures found { IfSome result (λ v. Between 1 self.now.n v) }
    {
        let mut best = None;
        for v in 1..=self.n {
            best = self.nearer(v, best);
        }
        best
    }
}

#[tactic(auto, unfolding(crate::specs::Half::put))]
fn store(half: &mut [u32], n: usize, v: usize, e: Entry)
    requires { Between 1 n v × (length half.old ≡ 3 * n) }
    ensures { half.new ≡ put n half.old v e }
{
    let at = v - 1;
    half[at] = e.dist;
    half[n + at] = e.link;
    half[2 * n + at] = e.state;
}

// Opening: the root is open at distance 0, all else is unseen.
#[tactic(auto, using(crate::proofs::Opening::blank_by), unfolding(crate::specs::Half::open_half))]
pub fn open_half(half: &mut [u32], n: usize, root: usize)
    requires { Between 1 n root × (length half.old ≡ 3 * n) }
    ensures { half.new ≡ open_half n root }
{
    half[..n].fill(UNKNOWN);
    half[n..].fill(0);
    let opened = Entry {
        dist: 0,
        link: 0,
        state: OPEN,
    };
    store(half, n, root, opened);
}

// The end of link k that a side leaves.
#[tactic(auto, unfolding(map::specs::Walk::near, map::specs::Map::tail, map::specs::Map::head))]
pub fn near(map: &[u32], side: Side, k: usize) -> u32
    requires { (1 ≤ k) × (3 * k ≤ length map.now) }
    ensures { result ≡ near_of side map.now k }
{
    match side {
        Side::Forward => map[3 * k - 3],
        Side::Backward => map[3 * k - 2],
    }
}

// The end of link k that a side comes to: the one that the other side leaves.
#[tactic(auto, using(map::proofs::Walks::near_other))]
pub fn far(map: &[u32], side: Side, k: usize) -> u32
    requires { (1 ≤ k) × (3 * k ≤ length map.now) }
    ensures { result ≡ far_of side map.now k }
{
    near(map, side.other(), k)
}

// What an unsettled crossing holds after link number k offers it a sum up to the ceiling.
#[tactic(auto, unfolding(crate::specs::Half::offered))]
fn taken(e: Entry, k: u32, sum: u32) -> Entry
    requires { (e.state ≡ 2 → ⊥) × (sum ≤ ceiling) }
    ensures { result ≡ offered k sum e }
{
    if e.state == UNSEEN || sum < e.dist {
        return Entry {
            dist: sum,
            link: k,
            state: OPEN,
        };
    }
    if sum == e.dist && k < e.link {
        return Entry { link: k, ..e };
    }
    e
}

// What a crossing holds after link number k of this cost offers it a way from distance d.
#[tactic(auto, unfolding(crate::specs::Half::offered))]
fn offer(e: Entry, k: u32, d: u32, cost: u32) -> Entry
    ensures { result ≡ offered k (d + cost) e }
{
    let sum = u64::from(d) + u64::from(cost);
    if e.state == SETTLED || u64::from(CEILING) < sum {
        return e;
    }
    taken(e, k, sum as u32)
}

// Link number k of this cost offers v a way from distance d.
fn reach(half: &mut [u32], n: usize, v: usize, k: u32, d: u32, cost: u32)
    requires { Between 1 n v × (length half.old ≡ 3 * n) }
    ensures { half.new ≡ put n half.old v (offered k (d + cost) (entry_of n half.old v)) }
{
    let e = Half { words: half, n }.entry(v);
    store(half, n, v, offer(e, k, d, cost));
}

// Rule 2 for link k, where it leaves x, which is settled at distance d.
#[tactic(auto, unfolding(crate::specs::Half::relaxed, map::specs::Map::cost))]
fn relax(half: &mut [u32], roads: &Roads, side: Side, x: usize, d: u32, k: usize)
    requires { Between 1 roads.now.m k × (length half.old ≡ 3 * roads.now.n) }
    ensures { half.new ≡ relaxed side roads.now.map.now roads.now.n x d k half.old }
{
    if near(roads.map, side, k) as usize != x {
        return;
    }
    let n = roads.n as usize;
    let v = far(roads.map, side, k) as usize;
    reach(half, n, v, k as u32, d, roads.map[3 * k - 1]);
}

// Rule 2: x is made settled, then each link leaving it, in number order.
#[tactic(auto, using(crate::proofs::Folds::up_to_next), unfolding(crate::specs::Fold::up_to, crate::specs::Half::settled_at))]
pub fn settle(half: &mut [u32], roads: &Roads, side: Side, x: usize)
    requires { Between 1 roads.now.n x × (length half.old ≡ 3 * roads.now.n) }
    ensures { half.new ≡ settled_at side roads.now.map.now roads.now.n roads.now.m x half.old }
{
    let n = roads.n as usize;
    let e = Half { words: half, n }.entry(x);
    let settled = Entry {
        state: SETTLED,
        ..e
    };
    store(half, n, x, settled);
    for k in 1..=roads.m as usize {
        relax(half, roads, side, x, e.dist, k);
    }
}
