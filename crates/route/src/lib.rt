// Along the two trails of a crossing: local optimality, the mask of the area, and the route.
#![tactic(auto)]

ghost use Rattle.std.specs.Prelude.{◌≡◌, reverse, ◌+◌, ◌≤◌, length, IfSome};
ghost use Rattle.std.proofs.lemmas.List.Edits.{sets};
ghost use Rattle.limits.specs.Limits.{Between};
ghost use Rattle.map.specs.Walk.{by_side};
ghost use Rattle.map.specs.declared.Side.TheVariants.{Forward as forward, Backward as backward};
ghost use Rattle.half.specs.Half.{or_zero, ceiling, dist};
ghost use Rattle.trail.specs.Trail.{trail as trail_of, Settled, Trails as CanWalk, Walkable};
ghost use Rattle.route.specs.Area.{agrees_at, local_in, mask_at, mask_filled, route_in};

use half::{Half, SETTLED};
use map::Side;
use shape::Halves;
use trail::Trails;

// The other half has settled q, at distance sum.
#[tactic(auto, unfolding(crate::specs::Area::agrees_at))]
fn agrees(other: &Half, q: u32, sum: u32) -> bool
    requires { Between 1 other.now.n q }
    ensures { result ≡ agrees_at other.now.n other.now.words.now q sum }
{
    let e = other.entry(q as usize);
    e.state == SETTLED && e.dist == sum
}

// Every tested crossing of the trail of x agrees with the other half. Distances fall along a trail, so the tested ones come first.
fn local_in(trails: &Trails, other: &Half, locality: u32, x: u32) -> bool
    requires { (other.now.n ≡ trails.now.half.n) × Settled trails.now.half.n trails.now.half.words.now x × (dist other.now.words.now x ≤ ceiling) }
    ensures { result ≡ local_in trails.now.side trails.now.map.now trails.now.half.n locality trails.now.half.words.now other.now.words.now x }
{
    let from = trails.half.entry(x as usize).dist;
    let to = other.entry(x as usize).dist;
    let mut at = Some(x);
    while let Some(q) = at {
        let d = from - trails.half.entry(q as usize).dist;
        if locality < d {
            return true;
        }
        if !agrees(other, q, d + to) {
            return false;
        }
        at = trails.after(q);
    }
    true
}

// The trail of x, of length k, written backward: x at index k - 1.
fn write_back(trails: &Trails, k: usize, x: u32, buffer: &mut [u32])
    requires { Settled trails.now.half.n trails.now.half.words.now x × (k ≡ length (trail_of trails.now.side trails.now.map.now trails.now.half.n trails.now.half.words.now x)) × (k ≤ length buffer.old) }
    ensures { buffer.new ≡ sets buffer.old 0 (reverse (trail_of trails.now.side trails.now.map.now trails.now.half.n trails.now.half.words.now x)) }
{
    let mut j = k;
    let mut at = Some(x);
    while let Some(v) = at {
        j -= 1;
        buffer[j] = v;
        at = trails.after(v);
    }
}

// The trail from a crossing on, if there is one, written from index k; answers the index after it.
fn write_on(trails: &Trails, k: usize, first: Option<u32>, buffer: &mut [u32]) -> usize
    requires { IfSome first (Settled trails.now.half.n trails.now.half.words.now) × (k + length (trail_of trails.now.side trails.now.map.now trails.now.half.n trails.now.half.words.now (or_zero first)) ≤ length buffer.old) }
    ensures { (result ≡ k + length (trail_of trails.now.side trails.now.map.now trails.now.half.n trails.now.half.words.now (or_zero first))) × (buffer.new ≡ sets buffer.old k (trail_of trails.now.side trails.now.map.now trails.now.half.n trails.now.half.words.now (or_zero first))) }
{
    let mut i = k;
    let mut at = first;
    while let Some(v) = at {
        buffer[i] = v;
        i += 1;
        at = trails.after(v);
    }
    i
}

// The trails of both halves, which can be walked.
#[derive(Clone, Copy)]
pub struct BothTrails<'a> {
    pub map: &'a [u32],
    pub halves: Halves<'a>,
    ghost forward: { CanWalk forward map.now halves.forward.n halves.forward.words.now },
    ghost backward: { CanWalk backward map.now halves.forward.n halves.backward.words.now },
}

impl<'a> BothTrails<'a> {
    // Those of a side.
    fn trails(&self, side: Side) -> Trails<'a>
        ensures map { result.map.now ≡ self.now.map.now }
        ensures n { result.half.n ≡ self.now.halves.forward.n }
        ensures words { result.half.words.now ≡ by_side side self.now.halves.forward.words.now self.now.halves.backward.words.now }
        ensures side { result.side ≡ side }
    {
        let half = match side {
            Side::Forward => self.halves.forward,
            Side::Backward => self.halves.backward,
        };
        Trails {
            map: self.map,
            half,
            side,
        }
    }

    // What the mask holds of x: a byte, as the C interface lends the mask.
    #[tactic(auto, unfolding(crate::specs::Area::mask_at))]
    fn mask_at(&self, marks: &[u32], locality: u32, x: u32) -> u8
        requires { Walkable self.now.map.now self.now.halves.forward.n self.now.halves.forward.words.now self.now.halves.backward.words.now marks.now × Between 1 self.now.halves.forward.n x }
        ensures { result ≡ mask_at self.now.map.now self.now.halves.forward.n locality self.now.halves.forward.words.now self.now.halves.backward.words.now marks.now x }
    {
        if marks[x as usize - 1] != 1 {
            return 0;
        }
        let there = self.trails(Side::Forward);
        let on = self.trails(Side::Backward);
        if local_in(&there, &on.half, locality, x) && local_in(&on, &there.half, locality, x) {
            2
        } else {
            1
        }
    }

    // Fills the first n bytes of the mask.
    pub fn fill_mask(&self, marks: &[u32], locality: u32, mask: &mut [u8])
        requires { Walkable self.now.map.now self.now.halves.forward.n self.now.halves.forward.words.now self.now.halves.backward.words.now marks.now × (self.now.halves.forward.n ≤ 4096) × (self.now.halves.forward.n ≤ length mask.old) }
        ensures { mask.new ≡ mask_filled self.now.map.now self.now.halves.forward.n locality self.now.halves.forward.words.now self.now.halves.backward.words.now marks.now mask.old }
    {
        for x in 1..=self.halves.forward.n {
            mask[x - 1] = self.mask_at(marks, locality, x as u32);
        }
    }

    // The length of the route through x, had before the first word is written.
    pub fn route_length(&self, x: u32) -> usize
        requires { Settled self.now.halves.forward.n self.now.halves.forward.words.now x × Settled self.now.halves.forward.n self.now.halves.backward.words.now x }
        ensures { result ≡ length (route_in self.now.map.now self.now.halves.forward.n self.now.halves.forward.words.now self.now.halves.backward.words.now x) }
    {
        let there = self.trails(Side::Forward).length(x);
        let on = self.trails(Side::Backward).length(x);
        there + on - 1
    }

    // Writes the route through x over the first words of the buffer; answers its length.
    pub fn write_route(&self, x: u32, buffer: &mut [u32]) -> usize
        requires { Settled self.now.halves.forward.n self.now.halves.forward.words.now x × Settled self.now.halves.forward.n self.now.halves.backward.words.now x × (length (route_in self.now.map.now self.now.halves.forward.n self.now.halves.forward.words.now self.now.halves.backward.words.now x) ≤ length buffer.old) }
        ensures { (result ≡ length (route_in self.now.map.now self.now.halves.forward.n self.now.halves.forward.words.now self.now.halves.backward.words.now x)) × (buffer.new ≡ sets buffer.old 0 (route_in self.now.map.now self.now.halves.forward.n self.now.halves.forward.words.now self.now.halves.backward.words.now x)) }
    {
        let there = self.trails(Side::Forward);
        let on = self.trails(Side::Backward);
        let k = there.length(x);
        write_back(&there, k, x, buffer);
        write_on(&on, k, on.after(x), buffer)
    }
}
