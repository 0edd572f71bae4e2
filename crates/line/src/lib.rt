// One line of a text, its LF included, and where the lines of a text end.
#![tactic(auto)]

ghost use Rattle.std.specs.Prelude.{◌≡◌};
ghost use Rattle.line.specs.Line.{field_of, agree_of, field_at, comment_of, size_of, link_of, line_of};
ghost use Rattle.line.specs.Lines.{line_end};
ghost use Rattle.line.specs.declared.NoLine.TheVariants.{Wrong};

use number::{Misplaced, Number};

// A number of a line and the place where it begins.
#[derive(Clone, Copy, Debug, PartialEq, Eq)]
pub struct Field {
    pub value: u32,
    pub place: usize,
}

impl Field {
    fn new(value: u32, place: usize) -> Field
        ensures { result ≡ field_of value place }
    {
        Field { value, place }
    }
}

// What a line is.
#[derive(Clone, Copy, Debug, PartialEq, Eq)]
pub enum Line {
    Comment,
    // N and M
    Size(Field, Field),
    // U, V and W
    Link(Field, Field, Field),
}

// Why a line is none of these, with the first place that cannot belong there.
#[derive(Clone, Copy, Debug, PartialEq, Eq)]
pub enum NoLine {
    // not begun as one of the three
    Strange(usize),
    // a bad number, bad spacing or no LF
    Wrong(usize),
}

impl From<Misplaced> for NoLine {
    ghost from_gives = { λ m e. e ≡ Wrong m.at };

    fn from(misplaced: Misplaced) -> NoLine {
        NoLine::Wrong(misplaced.at)
    }
}

// How far the line agrees with the word.
#[tactic(auto, using(crate::proofs::Laws::agree_end, crate::proofs::Laws::agree_out, crate::proofs::Laws::agree_other, crate::proofs::Laws::agree_more))]
fn agree(line: &[u8], word: &[u8]) -> usize
    ensures { result ≡ agree_of line.now word.now }
{
    for (i, b) in word.iter().enumerate() {
        if line.len() <= i || line[i] != *b {
            return i;
        }
    }
    word.len()
}

// A number at a place and the byte `stop` behind it: its value and the place after that byte.
#[tactic(auto, using(std::proofs::lemmas::Bool::Decides::nat_tests), unfolding(crate::specs::Line::field_at, crate::specs::Line::stop_at))]
fn field_at(line: &[u8], at: usize, stop: u8) -> Result<Number, Misplaced>
    ensures { result ≡ field_at line.now at stop }
{
    let number = number::number_at(line, at)?;
    let next = number.next;
    if line.len() <= next || line[next] != stop {
        return Err(Misplaced { at: next });
    }
    Ok(Number {
        value: number.value,
        next: next + 1,
    })
}

// A line that begins with `c`.
#[tactic(auto, using(std::proofs::lemmas::Bool::Decides::nat_tests), unfolding(crate::specs::Line::comment_of))]
fn comment(line: &[u8]) -> Result<Line, NoLine>
    ensures { result ≡ comment_of line.now }
{
    match line {
        [_, b'\n', ..] | [_, b' ', .., b'\n'] => Ok(Line::Comment),
        [] | [_] | [_, b' ', ..] => Err(NoLine::Wrong(line.len())),
        _ => Err(NoLine::Strange(1)),
    }
}

// A line that begins with `p`.
#[tactic(auto, using(std::proofs::lemmas::Bool::Decides::nat_tests), unfolding(crate::specs::Line::size_of))]
fn size(line: &[u8]) -> Result<Line, NoLine>
    ensures { result ≡ size_of line.now }
{
    let agreed = agree(line, b"p sp ");
    if agreed < 5 {
        return Err(NoLine::Strange(agreed));
    }
    let n = field_at(line, 5, b' ')?;
    let m = field_at(line, n.next, b'\n')?;
    Ok(Line::Size(Field::new(n.value, 5), Field::new(m.value, n.next)))
}

// A line that begins with `a`.
#[tactic(auto, using(std::proofs::lemmas::Bool::Decides::nat_tests), unfolding(crate::specs::Line::link_of))]
fn link(line: &[u8]) -> Result<Line, NoLine>
    ensures { result ≡ link_of line.now }
{
    let agreed = agree(line, b"a ");
    if agreed < 2 {
        return Err(NoLine::Strange(agreed));
    }
    let u = field_at(line, 2, b' ')?;
    let v = field_at(line, u.next, b' ')?;
    let w = field_at(line, v.next, b'\n')?;
    Ok(Line::Link(
        Field::new(u.value, 2),
        Field::new(v.value, u.next),
        Field::new(w.value, v.next),
    ))
}

// What a line is, its LF included. It is made part of its callers: an answer of this size is not to be written out for each line.
#[tactic(auto, using(std::proofs::lemmas::Bool::Decides::nat_tests), unfolding(crate::specs::Line::line_of))]
#[inline(always)]
pub fn read_line(line: &[u8]) -> Result<Line, NoLine>
    ensures { result ≡ line_of line.now }
{
    match line {
        [b'c', ..] => comment(line),
        [b'p', ..] => size(line),
        [b'a', ..] => link(line),
        _ => Err(NoLine::Strange(0)),
    }
}

// The place after the line that begins at a place of the text.
#[tactic(auto, using(crate::proofs::Lines::end_cut, crate::proofs::Lines::end_more, crate::proofs::Lines::end_out))]
pub fn line_end(text: &[u8], at: usize) -> usize
    ensures { result ≡ line_end text.now at }
{
    for i in at..text.len() {
        if text[i] == b'\n' {
            return i + 1;
        }
    }
    at.max(text.len())
}
