// Rows about benches, on standard input; each is printed again, with its answer. Numbers are parted by one space.
//   m N M WORDS..   the map that the calls below are lent
//   r ROOM          a bench of so many words, each of them 7
//   o START TARGET STRETCH, f, b   opening; a forward, a backward turn
//   p PLACE WORD    damages the bench
//   w               the words of the bench
//   a LOCALITY ROOM the area, with a mask of so many bytes, each of them 9
//   t CROSSING ROOM the route through a crossing, with a buffer of so many words, each of them 9
//   h CROSSING ROOM the number of the companion call, and the part that is handed back
// Any other row is a remark.
#![tactic(auto)]

use bench_row::Lent;
use std::io;
use std::io::Write;

// What the rows so far have set: the numbers of the map's row, and the words of the bench, each with how many are in use.
#[derive(Drop)]
struct Setting {
    numbers: [u32; 64],
    count: usize,
    words: [u32; 64],
    room: usize,
}

fn put(bench: &mut [u32], place: u32, word: u32) {
    if let Some(old) = bench.get_mut(place as usize) {
        *old = word;
    }
}

// A row that asks for a call, on the numbers of the map's row and on the bench.
fn run_row<W: Write>(
    out: &mut W,
    kind: u8,
    row: &[u8],
    numbers: &[u32],
    bench: &mut [u32],
) -> io::Result<()> {
    let [n, m, map @ ..] = numbers else {
        return Ok(());
    };
    let lent = Lent { map, n: *n, m: *m };
    let mut given = [0u32; 3];
    rows::numbers(row, 2, &mut given);
    let [a, b, _] = given;
    match kind {
        b'o' => bench_row::open_row(out, lent, given, bench),
        b'f' => bench_row::print_turn(out, bench::forward(map, *n, *m, bench)),
        b'b' => bench_row::print_turn(out, bench::backward(map, *n, *m, bench)),
        b'p' => {
            put(bench, a, b);
            Ok(())
        }
        b'w' => rows::print_numbers(out, bench),
        b'a' => bench_row::area_row(out, lent, bench, a, b as usize),
        b't' => bench_row::route_row(out, lent, bench, a, b as usize),
        b'h' => bench_row::handed_row(out, lent, bench, a, b as usize),
        _ => Ok(()),
    }
}

// Such a row on what is set; a bench that is longer than the words there are for it answers nothing.
fn run_set<W: Write>(out: &mut W, kind: u8, row: &[u8], setting: &mut Setting) -> io::Result<()> {
    let Some(numbers) = setting.numbers.get(..setting.count) else {
        return Ok(());
    };
    let Some(bench) = setting.words.get_mut(..setting.room) else {
        return Ok(());
    };
    run_row(out, kind, row, numbers, bench)
}

// A row that sets the map or the bench, or one that runs on them.
fn any_row<W: Write>(out: &mut W, row: &[u8], setting: &mut Setting) -> io::Result<()> {
    let [line @ .., _] = row else {
        return Ok(());
    };
    out.write_all(line)?;
    match row[0] {
        b'm' => setting.count = rows::numbers(row, 2, &mut setting.numbers),
        b'r' => {
            let mut given = [0u32; 1];
            rows::numbers(row, 2, &mut given);
            let [room] = given;
            setting.words.fill(7);
            setting.room = room as usize;
        }
        kind => run_set(out, kind, row, setting)?,
    }
    writeln!(out)
}

fn main(rt: HostRuntime) -> io::Result<()> {
    let mut rows = [0u8; 65536];
    let n = rows::read_full(&mut rt.stdin(), &mut rows);
    let mut setting = Setting {
        numbers: [0; 64],
        count: 0,
        words: [0; 64],
        room: 0,
    };
    let out = &mut rt.stdout();
    for row in rows[..n].split_inclusive(|b| *b == b'\n') {
        any_row(out, row, &mut setting)?;
    }
    Ok(())
}
