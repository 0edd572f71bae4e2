// The lines that the program prints of an area.
#![tactic(auto)]

ghost use Rattle.std.specs.Prelude.{◌≡◌, ◌+◌, ◌≤◌, length};
ghost use Rattle.limits.specs.Limits.{Between};
ghost use Rattle.map.specs.declared.Side.TheVariants.{Forward, Backward};
ghost use Rattle.half.specs.Half.{dist};
ghost use Rattle.shape.specs.Bench.{half as half_of, parse};
ghost use Rattle.listing.specs.Letter.{letter_of};

use map::Side;
use shape::Bench;
use std::io;
use std::io::Write;

// `l` in BL, `b` in B only.
fn letter_of(byte: u8) -> char
    ensures { result ≡ letter_of byte }
{
    if byte == 2 { 'l' } else { 'b' }
}

// The sum of the two distances of v.
fn sum_of(bench: &Bench, v: usize) -> u64
    requires { Between 1 bench.now.n v }
    ensures { result ≡ dist (half_of Forward (parse bench.now.n bench.now.words.now)) v + dist (half_of Backward (parse bench.now.n bench.now.words.now)) v }
{
    let from = bench.half(Side::Forward).entry(v).dist;
    let to = bench.half(Side::Backward).entry(v).dist;
    u64::from(from) + u64::from(to)
}

// The optimum, then each crossing of B, rising.
pub fn print_area<W: Write>(out: &mut W, bench: &Bench, mask: &[u8]) -> io::Result<()>
    requires { bench.now.n ≤ length mask.now }
{
    writeln!(out, "o {}", bench.optimum())?;
    for v in 1..=bench.n {
        let byte = mask[v - 1];
        if byte != 0 {
            writeln!(out, "{} {v} {}", letter_of(byte), sum_of(bench, v))?;
        }
    }
    Ok(())
}
