// Trails of a bench: whether they are sound, and walking along them.
#![tactic(auto)]

ghost use Rattle.std.specs.Prelude.{◌≡◌, ◌*◌, length, IfSome};
ghost use Rattle.limits.specs.Limits.{Between};
ghost use Rattle.limits.specs.Refusals.{fault_of};
ghost use Rattle.half.specs.Half.{or_zero, ShapedHalf as IsShaped};
ghost use Rattle.shape.proofs.Props.{shaped_half_prop};
ghost use Rattle.trail.specs.Sound.{root_fault, tight_fault, named_fault, sound_at, sound_fault, mark_fault, marks_fault};
ghost use Rattle.trail.specs.Trail.{after as after_of, trail, Settled, Trails as CanWalk};

use half::{Entry, Half, SETTLED};
use limits::Refusal;
use map::{Roads, Side};
use shape::Halves;

// The root is settled at distance 0 with link number 0.
#[tactic(auto, unfolding(crate::specs::Sound::root_fault))]
fn check_root(e: Entry) -> Result<(), Refusal>
    ensures { fault_of result ≡ root_fault e }
{
    if e.dist != 0 || e.link != 0 || e.state != SETTLED {
        return Err(Refusal::Trails);
    }
    Ok(())
}

// The half of a side, well shaped for the roads.
#[derive(Clone, Copy)]
pub struct ShapedHalf<'a> {
    pub roads: Roads<'a>,
    pub half: Half<'a>,
    pub side: Side,
    ghost same_n: { half.n ≡ roads.n },
    ghost shaped: { IsShaped roads.n roads.m half.words.now } by { shaped_half_prop },
}

impl<'a> ShapedHalf<'a> {
    // Link k comes to v, settled at distance d, from a settled crossing, whose distance and the cost are d.
    #[tactic(auto, unfolding(crate::specs::Sound::tight_fault, map::specs::Map::cost))]
    fn check_tight(&self, v: usize, d: u32, k: usize) -> Result<(), Refusal>
        requires { Between 1 self.now.roads.m k }
        ensures { fault_of result ≡ tight_fault self.now.side self.now.roads.map.now self.now.roads.n self.now.half.words.now v d k }
    {
        let map = self.roads.map;
        let end = self.half.entry(half::near(map, self.side, k) as usize);
        if half::far(map, self.side, k) as usize != v
            || end.state != SETTLED
            || end.dist + map[3 * k - 1] != d
        {
            return Err(Refusal::Trails);
        }
        Ok(())
    }

    // The link number of v, settled with these words, names such a link.
    #[tactic(auto, using(crate::proofs::Checks::named_refused, crate::proofs::Checks::named_in), unfolding(crate::specs::Sound::named_fault))]
    fn check_named(&self, v: usize, e: Entry) -> Result<(), Refusal>
        ensures { fault_of result ≡ named_fault self.now.side self.now.roads.map.now self.now.roads.n self.now.roads.m self.now.half.words.now v e.dist e.link }
    {
        limits::check_range(1, self.roads.m, Refusal::Trails, e.link)?;
        self.check_tight(v, e.dist, e.link as usize)
    }

    // What the half holds of v is sound.
    #[tactic(auto, unfolding(crate::specs::Sound::sound_at))]
    fn check_at(&self, root: usize, v: usize) -> Result<(), Refusal>
        requires { Between 1 self.now.roads.n v }
        ensures { fault_of result ≡ sound_at self.now.side self.now.roads.map.now self.now.roads.n self.now.roads.m root self.now.half.words.now v }
    {
        let e = self.half.entry(v);
        if v == root {
            return check_root(e);
        }
        if e.state != SETTLED {
            return Ok(());
        }
        self.check_named(v, e)
    }

    // The trails of the half are sound.
    #[tactic(auto, unfolding(crate::specs::Sound::sound_fault))]
    pub fn check_sound(&self, root: usize) -> Result<(), Refusal>
        ensures { fault_of result ≡ sound_fault self.now.side self.now.roads.map.now self.now.roads.n self.now.roads.m root self.now.half.words.now }
    {
        if limits::all_pass(self.half.n, |v| self.check_at(root, v)) {
            return Ok(());
        }
        Err(Refusal::Trails)
    }
}

// The mark of v is what rule 4 gives.
#[tactic(auto, unfolding(crate::specs::Sound::mark_fault))]
fn check_mark(
    halves: &Halves,
    marks: &[u32],
    stretch: u32,
    optimum: u32,
    v: usize,
) -> Result<(), Refusal>
    requires { (length marks.now ≡ halves.now.forward.n) × Between 1 halves.now.forward.n v }
    ensures { fault_of result ≡ mark_fault halves.now.forward.n stretch optimum halves.now.forward.words.now halves.now.backward.words.now marks.now v }
{
    if marks[v - 1] != halves.mark(stretch, optimum, v) {
        return Err(Refusal::Trails);
    }
    Ok(())
}

// The marks are what rule 4 gives.
#[tactic(auto, unfolding(crate::specs::Sound::marks_fault))]
pub fn check_marks(
    halves: &Halves,
    marks: &[u32],
    stretch: u32,
    optimum: u32,
) -> Result<(), Refusal>
    requires { length marks.now ≡ halves.now.forward.n }
    ensures { fault_of result ≡ marks_fault halves.now.forward.n stretch optimum halves.now.forward.words.now halves.now.backward.words.now marks.now }
{
    let check = |v| check_mark(halves, marks, stretch, optimum, v);
    if limits::all_pass(halves.forward.n, check) {
        return Ok(());
    }
    Err(Refusal::Trails)
}

// The trails of a half that can be walked.
#[derive(Clone, Copy)]
pub struct Trails<'a> {
    pub map: &'a [u32],
    pub half: Half<'a>,
    pub side: Side,
    ghost walkable: { CanWalk side map.now half.n half.words.now },
}

impl<'a> Trails<'a> {
    // The crossing after v on its trail.
    #[tactic(auto, unfolding(crate::specs::Trail::after))]
    pub fn after(&self, v: u32) -> Option<u32>
        requires { Settled self.now.half.n self.now.half.words.now v }
        ensures crossing { or_zero result ≡ after_of self.now.side self.now.map.now self.now.half.n self.now.half.words.now v }
        ensures settled { IfSome result (Settled self.now.half.n self.now.half.words.now) }
    {
        let k = self.half.entry(v as usize).link as usize;
        if k == 0 {
            return None;
        }
        Some(half::near(self.map, self.side, k))
    }

    // How many crossings the trail of x has.
    pub fn length(&self, x: u32) -> usize
        requires { Settled self.now.half.n self.now.half.words.now x }
        ensures { result ≡ length (trail self.now.side self.now.map.now self.now.half.n self.now.half.words.now x) }
    {
        let mut count = 0;
        let mut at = Some(x);
        while let Some(v) = at {
            count += 1;
            at = self.after(v);
        }
        count
    }
}
