// The road map as it is lent: tail, head and cost of each link in turn.
#![tactic(auto)]

ghost use Rattle.std.specs.Prelude.{◌≡◌, ◌*◌, ◌≤◌, length, IfOk};
ghost use Rattle.limits.specs.First.{first_from};
ghost use Rattle.limits.specs.Refusals.{fault_of};
ghost use Rattle.map.specs.Map.{Valid, link_fault, map_fault};
ghost use Rattle.map.specs.Walk.{other};

use limits::Refusal;

// Which way links are driven: from tail to head, or from head to tail.
#[derive(Clone, Copy, Debug, PartialEq, Eq)]
pub enum Side {
    Forward,
    Backward,
}

impl Side {
    // The side that drives the links the other way.
    #[tactic(auto, unfolding(crate::specs::Walk::other))]
    pub fn other(self) -> Side
        ensures { result ≡ other self }
    {
        match self {
            Side::Forward => Side::Backward,
            Side::Backward => Side::Forward,
        }
    }
}

// The ends of link k, then its cost. All three are checked, and none is left out early, so that the compiler can take several links at a time.
#[tactic(auto, using(limits::proofs::Refused::told_and), unfolding(crate::specs::Map::link_fault, crate::specs::Map::ends_fault, crate::specs::Map::tail, crate::specs::Map::head, crate::specs::Map::cost))]
fn check_link(map: &[u32], n: u32, k: usize) -> Result<(), Refusal>
    requires { (1 ≤ k) × (3 * k ≤ length map.now) }
    ensures { fault_of result ≡ link_fault n map.now k }
{
    let end = 3 * k;
    let tail = limits::check_crossing(n, map[end - 3]);
    let head = limits::check_crossing(n, map[end - 2]);
    let cost = limits::check_cost(map[end - 1]);
    tail.and(head).and(cost)
}

// Links 1 to m, link by link, where first it is asked whether there is any fault: the compiler takes several links at a time for that.
fn check_links(map: &[u32], n: u32, m: usize) -> Result<(), Refusal>
    requires { 3 * m ≤ length map.now }
    ensures { fault_of result ≡ first_from (link_fault n map.now) 1 m }
{
    if limits::all_pass(m, |k| check_link(map, n, k)) {
        return Ok(());
    }
    for k in 1..=m {
        check_link(map, n, k)?;
    }
    Ok(())
}

// The first fault of a lent map of n crossings and m links: the counts, the room, then the links.
#[tactic(auto, using(limits::proofs::Refused::checks, limits::proofs::Laws::room_for), unfolding(crate::specs::Map::map_fault, crate::specs::Map::counts_fault))]
pub fn check(map: &[u32], n: u32, m: u32) -> Result<(), Refusal>
    ensures { fault_of result ≡ map_fault n m map.now }
{
    limits::check_n(n)?;
    limits::check_m(m)?;
    let links = m as usize;
    limits::check_room(3 * links, map.len())?;
    check_links(map, n, links)
}

// A valid road map: links 1 to m between crossings 1 to n.
#[derive(Clone, Copy)]
pub struct Roads<'a> {
    pub map: &'a [u32],
    pub n: u32,
    pub m: u32,
    ghost valid: { Valid n m map.now },
}

impl<'a> Roads<'a> {
    // The lent map, where it is valid for n crossings and m links.
    #[tactic(auto, using(crate::proofs::Laws::fault_valid))]
    pub fn new(map: &'a [u32], n: u32, m: u32) -> Result<Roads<'a>, Refusal>
        ensures fault { fault_of result ≡ map_fault n m map.now }
        ensures roads { IfOk result (λ r. (r.map.now ≡ map.now) × (r.n ≡ n) × (r.m ≡ m)) }
    {
        check(map, n, m)?;
        Ok(Roads { map, n, m })
    }
}
