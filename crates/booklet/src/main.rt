// The program: an order as four arguments, and a road map's text on standard input. It prints the optimum and the bypass area, or the
// first refusal alone.
#![tactic(auto)]

ghost use Rattle.std.specs.Prelude.{◌≡◌, IfOk, OnOk};
ghost use Rattle.limits.specs.Refusals.{fault_of};
ghost use Rattle.text.specs.Text.{map_after};
ghost use Rattle.bench.specs.Calls.{turn_fault};
ghost use Rattle.booklet.specs.Argument.{argument_of};
ghost use Rattle.booklet.specs.Survey.{alternated, finished_words, area_number, finished_mask, said, survey_said, survey_bench, survey_mask, HasRoom};

use bench::Turn;
use limits::Refusal;
use map::Side;
use shape::Bench;
use std::env::FillError;
use std::io;
use std::io::{Read, Write};
use std::rt::Env;
use text::Refused;

// The bytes of a text, the words of a map and the crossings of a bench that there is room for.
const TEXT: usize = 65536;

const MAP: usize = 12288;

const CROSSINGS: usize = 1024;

const BENCH: usize = 6 + 7 * CROSSINGS;

// ---- the arguments

// An order and its locality.
#[derive(Clone, Copy)]
struct Order {
    start: u32,
    target: u32,
    stretch: u32,
    locality: u32,
}

// The number that the whole word is by the text's rule.
#[tactic(auto, unfolding(crate::specs::Argument::argument_of))]
fn value_of(word: &[u8]) -> Option<u32>
    ensures { result ≡ argument_of word.now }
{
    let number = number::number_at(word, 0).ok()?;
    if number.next != word.len() {
        return None;
    }
    Some(number.value)
}

// Argument i. One that is not there is no number, nor is one that has no room here, as it is longer than any number.
fn argument_at<E: Env>(env: &E, i: usize) -> Option<u32> {
    let mut word = [0u8; 16];
    let k = env.arg(i, &mut word).ok()?;
    value_of(&word[..k])
}

// Whether there is an argument i.
fn is_given<E: Env>(env: &E, i: usize) -> bool {
    let mut word = [0u8; 16];
    !matches!(env.arg(i, &mut word), Err(FillError::NotPresent))
}

// The order, of exactly four arguments behind the program's name.
fn read_arguments<E: Env>(env: &E) -> Option<Order> {
    if is_given(env, 5) {
        return None;
    }
    Some(Order {
        start: argument_at(env, 1)?,
        target: argument_at(env, 2)?,
        stretch: argument_at(env, 3)?,
        locality: argument_at(env, 4)?,
    })
}

// ---- the survey: from the text to the area

// A refusal outside the text, at line 0.
fn outside(refusal: Refusal) -> Refused
    ensures { result ≡ record { refusal = refusal; line = 0 } }
{
    Refused { refusal, line: 0 }
}

// Takes turns alternately, forward first, until both halves are done: then two turns in a row settle nothing. Each half is done by its
// turn n + 1, so no more are taken.
fn take_turns(map: &[u32], n: u32, m: u32, bench: &mut [u32]) -> Result<(), Refusal>
    ensures answer { fault_of result ≡ turn_fault map.now n m bench.old }
    ensures bench { bench.new ≡ alternated map.now n m bench.old }
{
    let mut side = Side::Forward;
    let mut idle = false;
    for _ in 0..2 * u64::from(n) + 2 {
        let turn = bench::take_turn(map, n, m, side, bench)?;
        side = side.other();
        let Turn::Settled(_, _) = turn else {
            if idle {
                return Ok(());
            }
            idle = true;
            continue;
        };
        idle = false;
    }
    Ok(())
}

// Opens the bench, takes the turns and fills the mask. It takes each answer apart, and stops at the first refusal.
fn find_area(
    order: Order,
    map: &[u32],
    n: u32,
    m: u32,
    bench: &mut [u32],
    mask: &mut [u8],
) -> Result<(), Refusal>
    ensures answer { fault_of result ≡ area_number map.now n m order bench.old mask.old }
    ensures bench { bench.new ≡ finished_words map.now n m order bench.old }
    ensures mask { mask.new ≡ finished_mask map.now n m order bench.old mask.old }
    ensures room { OnOk result (HasRoom n bench.new mask.new) }
{
    let opening = bench::open_bench(map, n, m, order.start, order.target, order.stretch, bench);
    let Ok(()) = opening else {
        return opening;
    };
    take_turns(map, n, m, bench)?;
    let filling = bench::area(map, n, m, bench, order.locality, mask);
    let Ok(()) = filling else {
        return filling;
    };
    Ok(())
}

// Reads the text, and finds the area on its map. Answers how many crossings the map has.
fn survey(
    order: Order,
    text: &[u8],
    map: &mut [u32],
    bench: &mut [u32],
    mask: &mut [u8],
) -> Result<u32, Refused>
    ensures answer { said result ≡ survey_said text.now map.old order bench.old mask.old }
    ensures map { map.new ≡ map_after text.now map.old }
    ensures bench { bench.new ≡ survey_bench text.now map.old order bench.old mask.old }
    ensures mask { mask.new ≡ survey_mask text.now map.old order bench.old mask.old }
    ensures room { IfOk result (λ n. HasRoom n bench.new mask.new) }
{
    let size = text::read(text, map)?;
    // `map_err(outside)?` in place of the arms was tried: the check knows nothing of what a named function makes there.
    match find_area(order, map, size.n, size.m, bench, mask) {
        Ok(()) => Ok(size.n),
        Err(refusal) => Err(outside(refusal)),
    }
}

// Prints a refusal, the only line that is printed then.
fn print_refusal<W: Write>(out: &mut W, refused: Refused) -> io::Result<()> {
    writeln!(out, "r {} {}", refused.refusal.number(), refused.line)
}

fn report<W: Write>(
    out: &mut W,
    order: Order,
    text: &[u8],
    map: &mut [u32],
    bench: &mut [u32],
    mask: &mut [u8],
) -> io::Result<()> {
    match survey(order, text, map, bench, mask) {
        Ok(n) => {
            let bench = Bench {
                words: bench,
                n: n as usize,
            };
            listing::print_area(out, &bench, mask)
        }
        Err(refused) => print_refusal(out, refused),
    }
}

// ---- the program

fn run<W: Write>(out: &mut W, order: Order, text: &[u8]) -> io::Result<()> {
    let mut map = [0u32; MAP];
    let mut bench = [0u32; BENCH];
    let mut mask = [0u8; CROSSINGS];
    report(out, order, text, &mut map, &mut bench, &mut mask)
}

// Whether the input goes on behind a full text.
fn goes_on<R: Read>(input: &mut R) -> bool {
    let mut one = [0u8; 1];
    rows::read_full(input, &mut one) != 0
}

// The program over its arguments, its input and its output.
fn answer<E: Env, R: Read, W: Write>(env: &E, input: &mut R, out: &mut W) -> io::Result<()> {
    let Some(order) = read_arguments(env) else {
        return print_refusal(out, outside(Refusal::Layout));
    };
    let mut text = [0u8; TEXT];
    let k = rows::read_full(input, &mut text);
    if k == TEXT && goes_on(input) {
        return print_refusal(out, outside(Refusal::Count));
    }
    run(out, order, &text[..k])
}

// What cannot be written is lost: the program has no exit status of its own.
fn main(rt: HostRuntime) {
    let _ = answer(&rt, &mut rt.stdin(), &mut rt.stdout());
}
