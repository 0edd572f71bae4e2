// What one line of a road map's text does to what has been read.
#![tactic(auto)]

ghost use Rattle.std.specs.Prelude.{◌≡◌};
ghost use Rattle.line.specs.Line.{line_of};
ghost use Rattle.step.specs.Step.{at_place, layout_at, faulted, size_step, link_step, taken};

use limits::Refusal;
use line::{Field, Line, NoLine};

// What has been read: n and m, and how many links. Before the `p` line they are 0, so that no link is due.
#[derive(Clone, Copy, Debug, PartialEq, Eq)]
pub struct State {
    pub n: u32,
    pub m: u32,
    pub k: u32,
}

// A refusal, and the place in the line of what is at fault.
#[derive(Clone, Copy, Debug, PartialEq, Eq)]
pub struct Fault {
    pub refusal: Refusal,
    pub place: usize,
}

impl From<NoLine> for Fault {
    ghost from_gives = { λ l f. f ≡ layout_at l };

    fn from(none: NoLine) -> Fault {
        match none {
            NoLine::Strange(place) | NoLine::Wrong(place) => Fault {
                refusal: Refusal::Layout,
                place,
            },
        }
    }
}

// A check of what stands at a place.
fn at(place: usize, check: Result<(), Refusal>) -> Result<(), Fault>
    ensures { result ≡ at_place place check }
{
    check.map_err(|refusal| Fault { refusal, place })
}

// A `p` line is the only one. The ranges of N and M, then the room.
#[tactic(auto, using(crate::proofs::Chain::chain), unfolding(crate::specs::Step::size_step, crate::specs::Step::size_fault))]
fn size_step(room: usize, state: State, n: Field, m: Field) -> Result<State, Fault>
    ensures { faulted result ≡ size_step room state n m }
{
    if state.n != 0 {
        return Err(Fault {
            refusal: Refusal::Layout,
            place: 0,
        });
    }
    at(n.place, limits::check_n(n.value))?;
    at(m.place, limits::check_m(m.value))?;
    at(m.place, limits::check_room(3 * (m.value as usize), room))?;
    Ok(State {
        n: n.value,
        m: m.value,
        k: 0,
    })
}

// An `a` line is due: before the `p` line none is, nor beyond M. The ends U and V, then the cost.
#[tactic(auto, using(crate::proofs::Chain::chain), unfolding(crate::specs::Step::link_step, crate::specs::Step::link_fault))]
fn link_step(state: State, u: Field, v: Field, w: Field) -> Result<State, Fault>
    ensures { faulted result ≡ link_step state u v w }
{
    if state.m <= state.k {
        return Err(Fault {
            refusal: Refusal::Layout,
            place: 0,
        });
    }
    at(u.place, limits::check_crossing(state.n, u.value))?;
    at(v.place, limits::check_crossing(state.n, v.value))?;
    at(w.place, limits::check_cost(w.value))?;
    Ok(State {
        k: state.k + 1,
        ..state
    })
}

// What a line does, its LF included, where the map has room for so many words: the state after it, or its first fault.
#[tactic(auto, unfolding(crate::specs::Step::taken))]
pub fn take_line(bytes: &[u8], state: State, room: usize) -> Result<State, Fault>
    ensures { faulted result ≡ taken room state (line_of bytes.now) }
{
    match line::read_line(bytes)? {
        Line::Comment => Ok(state),
        Line::Size(n, m) => size_step(room, state, n, m),
        Line::Link(u, v, w) => link_step(state, u, v, w),
    }
}
