// The area and the routes of a finished bench: what is refused, and what is filled.
#![tactic(auto)]

ghost use Rattle.std.specs.Prelude.{◌≡◌, ◌-◌, ◌≤◌, length, get_or, IfOk};
ghost use Rattle.std.proofs.lemmas.List.Edits.{sets};
ghost use Rattle.limits.specs.Limits.{Between};
ghost use Rattle.limits.specs.Refusals.{fault_of};
ghost use Rattle.shape.specs.Bench.{half, root, parse};
ghost use Rattle.trail.specs.Sound.{sound_fault};
ghost use Rattle.route.specs.Area.{mask_of, route_of};
ghost use Rattle.area.specs.Finished.{done_fault, unknown_fault, rule_fault, trails_fault, finished_fault, area_fault, asked_fault, route_fault};

use limits::Refusal;
use map::Side;
use route::BothTrails;
use shaped::Shaped;
use trail::ShapedHalf;

// ---- a finished bench

// Both halves are done.
#[tactic(auto, using(crate::proofs::Laws::forward_open, crate::proofs::Laws::backward_open, crate::proofs::Laws::both_done, crate::proofs::Laws::first_word))]
fn check_done(lent: &Shaped) -> Result<(), Refusal>
    ensures { fault_of result ≡ done_fault (parse lent.now.roads.n lent.now.bench.words.now) }
{
    if !rules::is_done(&lent.bench, Side::Forward) || !rules::is_done(&lent.bench, Side::Backward) {
        return Err(Refusal::NotDone);
    }
    Ok(())
}

// A route is known.
#[tactic(auto, unfolding(crate::specs::Finished::unknown_fault, shape::specs::Rules::known))]
fn check_known(lent: &Shaped) -> Result<(), Refusal>
    ensures { fault_of result ≡ unknown_fault (parse lent.now.roads.n lent.now.bench.words.now) }
{
    if lent.bench.optimum() == limits::UNKNOWN {
        return Err(Refusal::NoRoute);
    }
    Ok(())
}

// The marks are what rule 4 gives.
#[tactic(auto, unfolding(crate::specs::Finished::rule_fault))]
fn check_marks(lent: &Shaped) -> Result<(), Refusal>
    ensures { fault_of result ≡ rule_fault lent.now.roads.n (parse lent.now.roads.n lent.now.bench.words.now) }
{
    let bench = &lent.bench;
    trail::check_marks(
        &bench.halves(),
        bench.marks(),
        bench.stretch(),
        bench.optimum(),
    )
}

// The trails of a half are sound.
fn check_half(lent: &Shaped, side: Side) -> Result<(), Refusal>
    ensures { fault_of result ≡ sound_fault side lent.now.roads.map.now lent.now.roads.n lent.now.roads.m (root side (parse lent.now.roads.n lent.now.bench.words.now)) (half side (parse lent.now.roads.n lent.now.bench.words.now)) }
{
    let shaped = ShapedHalf {
        roads: lent.roads,
        half: lent.bench.half(side),
        side,
    };
    shaped.check_sound(lent.bench.root(side) as usize)
}

// Trails and marks are sound.
#[tactic(auto, using(limits::proofs::Refused::checks), unfolding(crate::specs::Finished::trails_fault))]
fn check_trails(lent: &Shaped) -> Result<(), Refusal>
    ensures { fault_of result ≡ trails_fault lent.now.roads.map.now lent.now.roads.n lent.now.roads.m (parse lent.now.roads.n lent.now.bench.words.now) }
{
    check_half(lent, Side::Forward)?;
    check_half(lent, Side::Backward)?;
    check_marks(lent)
}

#[tactic(auto, using(limits::proofs::Refused::checks), unfolding(crate::specs::Finished::finished_fault))]
fn check_finished(lent: &Shaped) -> Result<(), Refusal>
    ensures { fault_of result ≡ finished_fault lent.now.roads.map.now lent.now.roads.n lent.now.roads.m (parse lent.now.roads.n lent.now.bench.words.now) }
{
    check_done(lent)?;
    check_known(lent)?;
    check_trails(lent)
}

// What is lent of a finished bench.
#[derive(Clone, Copy)]
pub struct Finished<'a, 'b> {
    pub lent: Shaped<'a, 'b>,
    ghost finished: { finished_fault lent.roads.map.now lent.roads.n lent.roads.m (parse lent.roads.n lent.bench.words.now) ≡ 0 },
}

impl<'a, 'b> Finished<'a, 'b> {
    fn new(lent: Shaped<'a, 'b>) -> Result<Finished<'a, 'b>, Refusal>
        ensures fault { fault_of result ≡ finished_fault lent.entry.roads.map.now lent.entry.roads.n lent.entry.roads.m (parse lent.entry.roads.n lent.entry.bench.words.now) }
        ensures lent { IfOk result (λ f. (f.lent.roads.map.now ≡ lent.entry.roads.map.now) × (f.lent.roads.n ≡ lent.entry.roads.n) × (f.lent.bench.words.now ≡ lent.entry.bench.words.now)) }
    {
        check_finished(&lent)?;
        Ok(Finished { lent })
    }

    // The trails of both halves, which a finished bench lets be walked.
    fn trails(&self) -> BothTrails<'_>
        ensures map { result.map.now ≡ self.now.lent.roads.map.now }
        ensures n { result.halves.forward.n ≡ self.now.lent.roads.n }
        ensures forward { result.halves.forward.words.now ≡ (parse self.now.lent.roads.n self.now.lent.bench.words.now).forward }
        ensures backward { result.halves.backward.words.now ≡ (parse self.now.lent.roads.n self.now.lent.bench.words.now).backward }
    {
        BothTrails {
            map: self.lent.roads.map,
            halves: self.lent.bench.halves(),
        }
    }

    // Fills the first n bytes of the mask.
    pub fn fill_area(&self, locality: u32, mask: &mut [u8])
        requires { self.now.lent.roads.n ≤ length mask.old }
        ensures { mask.new ≡ sets mask.old 0 (mask_of self.now.lent.roads.map.now locality (parse self.now.lent.roads.n self.now.lent.bench.words.now)) }
    {
        let marks = self.lent.bench.marks();
        self.trails().fill_mask(marks, locality, mask);
    }

    // The length of the route of a marked crossing.
    fn route_length(&self, crossing: u32) -> usize
        requires { Between 1 self.now.lent.roads.n crossing × (get_or (parse self.now.lent.roads.n self.now.lent.bench.words.now).marks (crossing - 1) 0 ≡ 0 → ⊥) }
        ensures { result ≡ length (route_of self.now.lent.roads.map.now (parse self.now.lent.roads.n self.now.lent.bench.words.now) crossing) }
    {
        self.trails().route_length(crossing)
    }

    // Writes the route over the first words of the buffer; answers its length.
    pub fn write_route(&self, crossing: u32, buffer: &mut [u32]) -> usize
        requires { Between 1 self.now.lent.roads.n crossing × (asked_fault self.now.lent.roads.map.now (parse self.now.lent.roads.n self.now.lent.bench.words.now) crossing (length buffer.old) ≡ 0) }
        ensures { (result ≡ length (route_of self.now.lent.roads.map.now (parse self.now.lent.roads.n self.now.lent.bench.words.now) crossing)) × (buffer.new ≡ sets buffer.old 0 (route_of self.now.lent.roads.map.now (parse self.now.lent.roads.n self.now.lent.bench.words.now) crossing)) }
    {
        self.trails().write_route(crossing, buffer)
    }
}

// ---- the area

// What is lent to an area call whose mask has room for so many bytes.
#[tactic(auto, using(limits::proofs::Refused::checks), unfolding(crate::specs::Finished::area_fault))]
pub fn check_area<'a, 'b>(
    map: &'a [u32],
    n: u32,
    m: u32,
    bench: &'b [u32],
    locality: u32,
    room: usize,
) -> Result<Finished<'a, 'b>, Refusal>
    ensures fault { fault_of result ≡ area_fault map.now n m bench.now locality room }
    ensures lent { IfOk result (λ f. (f.lent.roads.map.now ≡ map.now) × (f.lent.roads.n ≡ n) × (f.lent.bench.words.now ≡ bench.now)) }
{
    let lent = shaped::check_lent(map, n, m, limits::check_locality(locality), bench)?;
    limits::check_room(n as usize, room)?;
    Finished::new(lent)
}

// ---- the route of an asked crossing

// The asked crossing is marked, and its route has room.
#[tactic(auto, using(limits::proofs::Refused::checks, crate::proofs::Routes::unmarked), unfolding(crate::specs::Finished::asked_fault))]
fn check_asked(finished: &Finished, crossing: u32, room: usize) -> Result<(), Refusal>
    requires { Between 1 finished.now.lent.roads.n crossing }
    ensures { fault_of result ≡ asked_fault finished.now.lent.roads.map.now (parse finished.now.lent.roads.n finished.now.lent.bench.words.now) crossing room }
{
    if finished.lent.bench.marks()[crossing as usize - 1] == 0 {
        return Err(Refusal::Unmarked);
    }
    limits::check_room(finished.route_length(crossing), room)
}

// What is lent to a route call whose buffer has room for so many words.
#[tactic(auto, using(limits::proofs::Refused::checks), unfolding(crate::specs::Finished::route_fault))]
pub fn check_route<'a, 'b>(
    map: &'a [u32],
    n: u32,
    m: u32,
    bench: &'b [u32],
    crossing: u32,
    room: usize,
) -> Result<Finished<'a, 'b>, Refusal>
    ensures fault { fault_of result ≡ route_fault map.now n m bench.now crossing room }
    ensures lent { IfOk result (λ f. (f.lent.roads.map.now ≡ map.now) × (f.lent.roads.n ≡ n) × (f.lent.bench.words.now ≡ bench.now)) }
{
    let lent = shaped::check_lent(map, n, m, limits::check_crossing(n, crossing), bench)?;
    let finished = Finished::new(lent)?;
    check_asked(&finished, crossing, room)?;
    Ok(finished)
}
