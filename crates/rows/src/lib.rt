// What the programs share: reading an input, and for rows of numbers their numbers and the printing of numbers.
#![tactic(auto)]

ghost use Rattle.std.specs.Prelude.{◌≤◌, length};

use std::fmt::Display;
use std::io;
use std::io::{Read, Write};

// Reads until the buffer is full, the input ends or a read fails, and answers how many bytes it put at the start. The library's own
// reader to an end fills a `Vec`, and there is no heap here.
pub fn read_full<R: Read>(input: &mut R, buffer: &mut [u8]) -> usize
    ensures { result ≤ length buffer.new }
{
    let mut done = 0;
    while done < buffer.len() {
        match input.read(&mut buffer[done..]) {
            Ok(n) if 0 < n => done += n,
            _ => break,
        }
    }
    done
}

// Writes the numbers of a row from a place on, parted by one byte, into the words, and answers how many.
pub fn numbers(row: &[u8], from: usize, words: &mut [u32]) -> usize
    ensures { result ≤ length words.old }
{
    let mut at = from;
    for (k, word) in words.iter_mut().enumerate() {
        let Ok(number) = number::number_at(row, at) else {
            return k;
        };
        *word = number.value;
        if row.len() <= number.next {
            return k + 1;
        }
        at = number.next + 1;
    }
    words.len()
}

// Writes each number behind a space.
pub fn print_numbers<W: Write, T: Display>(out: &mut W, numbers: &[T]) -> io::Result<()> {
    for x in numbers {
        write!(out, " {x}")?;
    }
    Ok(())
}
