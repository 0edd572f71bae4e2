// The check of a bench's shape, and of what every call on a bench is lent.
#![tactic(auto)]

ghost use Rattle.std.specs.Prelude.{◌≡◌, length, IfOk};
ghost use Rattle.limits.specs.Refusals.{fault_of};
ghost use Rattle.shape.specs.Bench.{parse, WellShaped};
ghost use Rattle.shape.proofs.Props.{well_shaped_prop};
ghost use Rattle.shaped.specs.Shape.{unlike, unseen_fault, seen_fault, entry_fault, half_fault, marks_fault, size_fault, ends_fault, optimum_fault, head_fault, shape_fault};
ghost use Rattle.shaped.specs.Lent.{lent_fault};

use half::{Entry, Half, OPEN, SETTLED, UNSEEN};
use limits::{CEILING, Refusal, UNKNOWN};
use map::{Roads, Side};
use shape::Bench;

// Of two words that have to agree.
#[tactic(auto, unfolding(crate::specs::Shape::unlike))]
fn check_same(a: u32, b: u32) -> Result<(), Refusal>
    ensures { fault_of result ≡ unlike a b }
{
    if a != b {
        return Err(Refusal::Shape);
    }
    Ok(())
}

#[tactic(auto, using(limits::proofs::Refused::checks), unfolding(crate::specs::Shape::unseen_fault))]
fn check_unseen(e: Entry) -> Result<(), Refusal>
    ensures { fault_of result ≡ unseen_fault e }
{
    check_same(e.dist, UNKNOWN)?;
    check_same(e.link, 0)
}

#[tactic(auto, using(limits::proofs::Refused::checks), unfolding(crate::specs::Shape::seen_fault))]
fn check_seen(m: u32, e: Entry) -> Result<(), Refusal>
    ensures { fault_of result ≡ seen_fault m e }
{
    limits::check_range(0, CEILING, Refusal::Shape, e.dist)?;
    limits::check_range(0, m, Refusal::Shape, e.link)?;
    limits::check_range(OPEN, SETTLED, Refusal::Shape, e.state)
}

#[tactic(auto, unfolding(crate::specs::Shape::entry_fault))]
fn check_entry(m: u32, e: Entry) -> Result<(), Refusal>
    ensures { fault_of result ≡ entry_fault m e }
{
    if e.state == UNSEEN {
        return check_unseen(e);
    }
    check_seen(m, e)
}

#[tactic(auto, unfolding(crate::specs::Shape::half_fault))]
fn check_half(m: u32, half: Half) -> Result<(), Refusal>
    ensures { fault_of result ≡ half_fault half.entry.n m half.entry.words.now }
{
    if !limits::all_pass(half.n, |v| check_entry(m, half.entry(v))) {
        return Err(Refusal::Shape);
    }
    Ok(())
}

#[tactic(auto, unfolding(crate::specs::Shape::marks_fault))]
fn check_marks(marks: &[u32]) -> Result<(), Refusal>
    ensures { fault_of result ≡ marks_fault (length marks.now) marks.now }
{
    let check_mark = |v| limits::check_range(0, 1, Refusal::Shape, marks[v - 1]);
    if !limits::all_pass(marks.len(), check_mark) {
        return Err(Refusal::Shape);
    }
    Ok(())
}

#[tactic(auto, unfolding(crate::specs::Shape::optimum_fault))]
fn check_optimum(optimum: u32) -> Result<(), Refusal>
    ensures { fault_of result ≡ optimum_fault optimum }
{
    if optimum == UNKNOWN {
        return Ok(());
    }
    limits::check_range(0, CEILING, Refusal::Shape, optimum)
}

#[tactic(auto, using(limits::proofs::Refused::checks), unfolding(crate::specs::Shape::size_fault, shape::specs::Bench::parse))]
fn check_size(roads: &Roads, bench: &Bench) -> Result<(), Refusal>
    ensures { fault_of result ≡ size_fault roads.now.n roads.now.m (parse bench.now.n bench.now.words.now) }
{
    check_same(bench.words[0], roads.n)?;
    check_same(bench.words[1], roads.m)
}

#[tactic(auto, using(limits::proofs::Refused::checks), unfolding(crate::specs::Shape::ends_fault))]
fn check_ends(roads: &Roads, bench: &Bench) -> Result<(), Refusal>
    ensures { fault_of result ≡ ends_fault roads.now.n (parse bench.now.n bench.now.words.now) }
{
    limits::check_range(1, roads.n, Refusal::Shape, bench.root(Side::Forward))?;
    limits::check_range(1, roads.n, Refusal::Shape, bench.root(Side::Backward))
}

// Words 0 to 5.
#[tactic(auto, using(limits::proofs::Refused::checks), unfolding(crate::specs::Shape::head_fault))]
fn check_head(roads: &Roads, bench: &Bench) -> Result<(), Refusal>
    ensures { fault_of result ≡ head_fault roads.now.n roads.now.m (parse bench.now.n bench.now.words.now) }
{
    check_size(roads, bench)?;
    check_ends(roads, bench)?;
    limits::check_range(1000, 4000, Refusal::Shape, bench.stretch())?;
    check_optimum(bench.optimum())
}

// Whether the bench is well shaped for the roads.
#[tactic(auto, using(limits::proofs::Refused::checks), unfolding(crate::specs::Shape::shape_fault))]
fn check_shape(roads: &Roads, bench: &Bench) -> Result<(), Refusal>
    requires { bench.now.n ≡ roads.now.n }
    ensures { fault_of result ≡ shape_fault roads.now.n roads.now.m (parse roads.now.n bench.now.words.now) }
{
    check_head(roads, bench)?;
    check_half(roads.m, bench.half(Side::Forward))?;
    check_half(roads.m, bench.half(Side::Backward))?;
    check_marks(bench.marks())
}

// A valid map, and a bench that is well shaped for it.
#[derive(Clone, Copy)]
pub struct Shaped<'a, 'b> {
    pub roads: Roads<'a>,
    pub bench: Bench<'b>,
    ghost same_n: { bench.n ≡ roads.n },
    ghost shaped: { WellShaped roads.n roads.m (parse roads.n bench.words.now) } by { well_shaped_prop },
}

// The map, then the check of the call's own number, made before, then the bench.
#[tactic(auto, using(limits::proofs::Refused::checks, limits::proofs::Laws::room_for, crate::proofs::Shapes::shaped_for), unfolding(crate::specs::Lent::lent_fault))]
pub fn check_lent<'a, 'b>(
    map: &'a [u32],
    n: u32,
    m: u32,
    given: Result<(), Refusal>,
    bench: &'b [u32],
) -> Result<Shaped<'a, 'b>, Refusal>
    ensures fault { fault_of result ≡ lent_fault map.now n m (fault_of given) bench.now }
    ensures lent { IfOk result (λ s. (s.roads.map.now ≡ map.now) × (s.roads.n ≡ n) × (s.roads.m ≡ m) × (s.bench.words.now ≡ bench.now)) }
{
    let roads = Roads::new(map, n, m)?;
    given?;
    let crossings = n as usize;
    limits::check_room(shape::bench_words(crossings), bench.len())?;
    let bench = Bench {
        words: bench,
        n: crossings,
    };
    check_shape(&roads, &bench)?;
    Ok(Shaped { roads, bench })
}
