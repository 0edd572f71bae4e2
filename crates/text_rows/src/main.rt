// Rows about texts and lent maps, on standard input. A row that begins with a letter names a file, the words of the
// map slice and how often the file's last line stands in the text, and gets what the reader answers; before it every
// word of the map is 7. A row that begins with a digit has n, m and the words of a map, and gets its number of refusal.
#![tactic(auto)]

ghost use Rattle.std.specs.Prelude.{◌≤◌, ◌<◌, length};

use std::io::Write;
use std::rt::Files;
use std::{fs, io};

// The place of the first space, or the end.
fn space_at(row: &[u8]) -> usize
    ensures { result ≤ length row.now }
{
    row.iter().position(|b| *b == b' ').unwrap_or(row.len())
}

// Where the last line of a text begins.
fn last_line(text: &[u8]) -> usize
    requires { 1 ≤ length text.now }
    ensures { result < length text.now }
{
    for i in (1..text.len()).rev() {
        if text[i - 1] == b'\n' {
            return i;
        }
    }
    0
}

// Makes the last line of the first n bytes stand so many times, if there is room, and answers the length.
fn grown(text: &mut [u8], n: usize, times: u32) -> usize
    requires { n ≤ length text.old }
    ensures { result ≤ length text.old }
{
    if n == 0 {
        return n;
    }
    let bytes = n - last_line(&text[..n]);
    let Some(more) = bytes.checked_mul(times.saturating_sub(1) as usize) else {
        return n;
    };
    if text.len() - n < more {
        return n;
    }
    for i in n..n + more {
        text[i] = text[i - bytes];
    }
    n + more
}

// Reads the text into the map, which is printed where it is short.
fn print_reading<W: Write>(out: &mut W, text: &[u8], map: &mut [u32]) -> io::Result<()> {
    match text::read(text, map) {
        Ok(size) => write!(out, " read {} {}", size.n, size.m)?,
        Err(refused) => write!(
            out,
            " refused {} {}",
            refused.refusal.number(),
            refused.line
        )?,
    }
    if map.len() < 25 {
        write!(out, " :")?;
        rows::print_numbers(out, map)?;
    }
    writeln!(out)
}

// Reads the file into the text, and answers how many bytes it has: none where it cannot be opened.
fn read_file<F: Files>(files: &F, name: &[u8], text: &mut [u8]) -> usize
    ensures { result ≤ length text.new }
{
    let Ok(path) = str::from_utf8(name) else {
        return 0;
    };
    let Ok(mut file) = fs::open(files, path) else {
        return 0;
    };
    rows::read_full(&mut file, text)
}

fn run_row<F: Files, W: Write>(
    files: &F,
    out: &mut W,
    row: &[u8],
    text: &mut [u8],
    map: &mut [u32],
) -> io::Result<()> {
    let space = space_at(row);
    let name = &row[..space];
    let mut given = [0u32; 2];
    rows::numbers(row, space + 1, &mut given);
    let [room, times] = given;
    out.write_all(name)?;
    if map.len() < room as usize {
        return Ok(());
    }
    let n = read_file(files, name, text);
    let end = grown(text, n, times);
    print_reading(out, &text[..end], &mut map[..room as usize])
}

// Each row has a text and a map of its own.
fn read_row<F: Files, W: Write>(files: &F, out: &mut W, row: &[u8]) -> io::Result<()> {
    let mut text = [0u8; 1048600];
    let mut map = [7u32; 49160];
    run_row(files, out, row, &mut text, &mut map)
}

fn fault_row<W: Write>(out: &mut W, row: &[u8]) -> io::Result<()> {
    let mut words = [0u32; 64];
    let k = rows::numbers(row, 0, &mut words);
    let [n, m, map @ ..] = &words[..k] else {
        return Ok(());
    };
    let number = map::check(map, *n, *m).err().map_or(0, |r| r.number());
    writeln!(out, " {number}")
}

fn any_row<F: Files, W: Write>(files: &F, out: &mut W, row: &[u8]) -> io::Result<()> {
    match row.first() {
        None => Ok(()),
        Some(kind) if *kind <= b'9' => fault_row(out, row),
        Some(_) => read_row(files, out, row),
    }
}

fn main(rt: HostRuntime) -> io::Result<()> {
    let mut rows = [0u8; 4096];
    let n = rows::read_full(&mut rt.stdin(), &mut rows);
    let out = &mut rt.stdout();
    for row in rows[..n].split_inclusive(|b| *b == b'\n') {
        any_row(&rt, out, row)?;
    }
    Ok(())
}
