// One row about a bench: the call that it asks for, and its answer printed.
#![tactic(auto)]

use bench::Turn;
use limits::Refusal;
use std::fmt::Display;
use std::io;
use std::io::Write;

// The map that a call is lent.
#[derive(Clone, Copy)]
pub struct Lent<'a> {
    pub map: &'a [u32],
    pub n: u32,
    pub m: u32,
}

fn print_refused<W: Write>(out: &mut W, refusal: Refusal) -> io::Result<()> {
    write!(out, " refused {}", refusal.number())
}

// The words or bytes that a call was lent, or a part of them.
fn print_lent<W: Write, T: Display>(out: &mut W, lent: &[T]) -> io::Result<()> {
    write!(out, " :")?;
    rows::print_numbers(out, lent)
}

pub fn open_row<W: Write>(
    out: &mut W,
    lent: Lent,
    order: [u32; 3],
    bench: &mut [u32],
) -> io::Result<()> {
    let [start, target, stretch] = order;
    match bench::open_bench(lent.map, lent.n, lent.m, start, target, stretch, bench) {
        Ok(()) => write!(out, " opened"),
        Err(refusal) => print_refused(out, refusal),
    }
}

pub fn print_turn<W: Write>(out: &mut W, turn: Result<Turn, Refusal>) -> io::Result<()> {
    match turn {
        Ok(Turn::Settled(crossing, distance)) => write!(out, " settled {crossing} {distance}"),
        Ok(Turn::Done) => write!(out, " done"),
        Err(refusal) => print_refused(out, refusal),
    }
}

// The area, with a mask of so many bytes, each of them 9.
pub fn area_row<W: Write>(
    out: &mut W,
    lent: Lent,
    bench: &[u32],
    locality: u32,
    room: usize,
) -> io::Result<()> {
    let mut mask = [9u8; 16];
    if mask.len() < room {
        return Ok(());
    }
    let mask = &mut mask[..room];
    match bench::area(lent.map, lent.n, lent.m, bench, locality, mask) {
        Ok(()) => write!(out, " area")?,
        Err(refusal) => print_refused(out, refusal)?,
    }
    print_lent(out, mask)
}

// The route through a crossing, with a buffer of so many words, each of them 9.
pub fn route_row<W: Write>(
    out: &mut W,
    lent: Lent,
    bench: &[u32],
    crossing: u32,
    room: usize,
) -> io::Result<()> {
    let mut buffer = [9u32; 16];
    if buffer.len() < room {
        return Ok(());
    }
    let buffer = &mut buffer[..room];
    match bench::fill_route(lent.map, lent.n, lent.m, bench, crossing, buffer) {
        Ok(length) => write!(out, " route {length}")?,
        Err(refusal) => print_refused(out, refusal)?,
    }
    print_lent(out, buffer)
}

// The number of the companion call, and the part of such a buffer that is handed back.
pub fn handed_row<W: Write>(
    out: &mut W,
    lent: Lent,
    bench: &[u32],
    crossing: u32,
    room: usize,
) -> io::Result<()> {
    let mut buffer = [9u32; 16];
    if buffer.len() < room {
        return Ok(());
    }
    let buffer = &mut buffer[..room];
    let refusal = bench::route_refusal(lent.map, lent.n, lent.m, bench, crossing, buffer);
    write!(out, " handed {}", refusal.err().map_or(0, |r| r.number()))?;
    print_lent(
        out,
        bench::route(lent.map, lent.n, lent.m, bench, crossing, buffer),
    )
}
