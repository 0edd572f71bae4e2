// The refusals, and the ranges of the numbers of a road map and of an order.
#![tactic(auto)]

ghost use Rattle.std.specs.Prelude.{◌≡◌, ℕ};
ghost use Rattle.limits.specs.First.{all_fine};
ghost use Rattle.limits.specs.Refusals.{number_of, fault_of, Tells};
ghost use Rattle.limits.specs.Limits.{Between, number_outside, n_fault, m_fault, crossing_fault, cost_fault, stretch_fault, locality_fault, room_fault};

// The table of refusals, with their numbers.
#[derive(Clone, Copy, Debug, PartialEq, Eq)]
pub enum Refusal {
    // the layout of a text, or an argument that is no number
    Layout = 1,
    // a count, or the length of a text
    Count = 2,
    // too little room in what is lent
    Room = 3,
    // a crossing that the map does not have
    Crossing = 4,
    // a cost, a stretch or a locality
    Amount = 5,
    // the shape of a bench
    Shape = 6,
    // trails or marks that are not sound
    Trails = 7,
    // a half that is not done
    NotDone = 8,
    // no route from the start to the target
    NoRoute = 9,
    // an asked crossing that is not in the area
    Unmarked = 10,
}

impl Refusal {
    // Its number in the table.
    pub fn number(self) -> u32
        ensures { result ≡ number_of self }
    {
        self as u32
    }
}

// No distance goes above it.
pub const CEILING: u32 = 268365825;

// An unknown optimum, and the distance of an unseen crossing.
pub const UNKNOWN: u32 = 4294967295;

// The refusal where x lies outside low to high.
#[tactic(auto, using(crate::proofs::Laws::below_outside, crate::proofs::Laws::above_outside, crate::proofs::Laws::inside_outside))]
pub fn check_range(low: u32, high: u32, refusal: Refusal, x: u32) -> Result<(), Refusal>
    ensures { fault_of result ≡ number_outside low high (number_of refusal) x }
{
    if x < low || high < x {
        return Err(refusal);
    }
    Ok(())
}

pub fn check_n(n: u32) -> Result<(), Refusal>
    ensures { fault_of result ≡ n_fault n }
{
    check_range(1, 4096, Refusal::Count, n)
}

pub fn check_m(m: u32) -> Result<(), Refusal>
    ensures { fault_of result ≡ m_fault m }
{
    check_range(0, 16384, Refusal::Count, m)
}

// Of a link's end, a start, a target or an asked crossing.
pub fn check_crossing(n: u32, v: u32) -> Result<(), Refusal>
    ensures { fault_of result ≡ crossing_fault n v }
{
    check_range(1, n, Refusal::Crossing, v)
}

pub fn check_cost(w: u32) -> Result<(), Refusal>
    ensures { fault_of result ≡ cost_fault w }
{
    check_range(1, 65535, Refusal::Amount, w)
}

// Of the stretch of an order, in thousandths.
pub fn check_stretch(stretch: u32) -> Result<(), Refusal>
    ensures { fault_of result ≡ stretch_fault stretch }
{
    check_range(1000, 4000, Refusal::Amount, stretch)
}

pub fn check_locality(locality: u32) -> Result<(), Refusal>
    ensures { fault_of result ≡ locality_fault locality }
{
    check_range(0, CEILING, Refusal::Amount, locality)
}

// Of lent memory of this length, of which so much is needed.
#[tactic(auto, using(crate::proofs::Laws::short_room, crate::proofs::Laws::long_room))]
pub fn check_room(needed: usize, lent: usize) -> Result<(), Refusal>
    ensures { fault_of result ≡ room_fault needed lent }
{
    if lent < needed {
        return Err(Refusal::Room);
    }
    Ok(())
}

// Whether each of 1 to n passes the check. All are asked and none is left out early, so that the compiler can take several at a time.
pub fn all_pass<F: Fn(usize) -> Result<(), Refusal>>(n: usize, check: F) -> bool
    requires { (v : ℕ) → Between 1 n v → F.pre check v }
    ensures { (fault : ℕ → ℕ) → Tells (F.post check) n fault → result ≡ all_fine fault n }
{
    let mut all = true;
    for v in 1..=n {
        all &= check(v).is_ok();
    }
    all
}
