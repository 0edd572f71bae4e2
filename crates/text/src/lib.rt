// The reader of a road map's text: it holds the text and the place it has come to, checks all that is left first, and then
// writes the map. What takes or makes a `Reader` is thin, over functions on a slice and a number.
#![tactic(auto)]

ghost use Rattle.std.specs.Prelude.{◌≡◌, ◌+◌, ◌≤◌, length, drop};
ghost use Rattle.std.proofs.lemmas.List.Edits.{sets};
ghost use Rattle.line.specs.Line.{line_of};
ghost use Rattle.line.specs.Lines.{lines_of, line_end};
ghost use Rattle.text.specs.Held.{line_at, reader_at};
ghost use Rattle.text.specs.Text.{said, at_line, finish, read_text, line_words, words_of, map_after};

use limits::Refusal;
use line::{Line, NoLine};
use step::{Fault, State};

// The counts of crossings and of links of a text that is read.
#[derive(Clone, Copy, Debug, PartialEq, Eq)]
pub struct Size {
    pub n: u32,
    pub m: u32,
}

// The refusal of a text, and its line, 0 for the length.
#[derive(Clone, Copy, Debug, PartialEq, Eq)]
pub struct Refused {
    pub refusal: Refusal,
    pub line: u32,
}

// The most bytes of a text.
const LONGEST: usize = 1048576;

// The end of the text, at the line after the last.
#[tactic(auto, using(std::proofs::lemmas::Bool::Decides::nat_tests), unfolding(crate::specs::Text::finish))]
fn ended(state: State, line: u32) -> Result<Size, Refused>
    ensures { said result ≡ finish state line }
{
    if state.n == 0 || state.k != state.m {
        return Err(Refused {
            refusal: Refusal::Layout,
            line,
        });
    }
    Ok(Size {
        n: state.n,
        m: state.m,
    })
}

// What a line does, its refusal told with the line's number.
fn at_line(line: u32, step: Result<State, Fault>) -> Result<State, Refused>
    ensures { result ≡ at_line line step }
{
    step.map_err(|fault| Refused {
        refusal: fault.refusal,
        line,
    })
}

// Checks the whole text.
fn scan(text: &[u8], room: usize) -> Result<Size, Refused>
    ensures { said result ≡ read_text room text.now }
{
    if LONGEST < text.len() {
        return Err(Refused {
            refusal: Refusal::Count,
            line: 0,
        });
    }
    let mut state = State { n: 0, m: 0, k: 0 };
    let mut number: u32 = 1;
    for line in text.split_inclusive(|b| *b == b'\n') {
        state = at_line(number, step::take_line(line, state, room))?;
        number += 1;
    }
    ended(state, number)
}

// Writes the three words of a link at a place of the map, and answers the place after them; another line has none.
#[tactic(auto, unfolding(crate::specs::Text::line_words))]
fn put_line(bytes: &[u8], map: &mut [u32], at: usize) -> usize
    requires { at + length (line_words (line_of bytes.now)) ≤ length map.old }
    ensures place { result ≡ at + length (line_words (line_of bytes.now)) }
    ensures map { map.new ≡ sets map.old at (line_words (line_of bytes.now)) }
{
    let Ok(Line::Link(u, v, w)) = line::read_line(bytes) else {
        return at;
    };
    map[at] = u.value;
    map[at + 1] = v.value;
    map[at + 2] = w.value;
    at + 3
}

// Writes the words of all links.
fn fill(text: &[u8], map: &mut [u32])
    requires { length (words_of (lines_of text.now)) ≤ length map.old }
    ensures { map.new ≡ sets map.old 0 (words_of (lines_of text.now)) }
{
    let mut at = 0;
    for line in text.split_inclusive(|b| *b == b'\n') {
        at = put_line(line, map, at);
    }
}

// What is left of a text from a place on: nothing from its end on.
fn left<'a>(text: &'a [u8], at: usize) -> &'a [u8]
    ensures { result.now ≡ drop at text.now }
{
    &text[at.min(text.len())..]
}

// The line that begins at a place: from the end on the empty one, which is none of the three kinds.
fn line_at(text: &[u8], at: usize) -> Result<Line, NoLine>
    ensures { result ≡ line_at text.now at }
{
    let rest = left(text, at);
    let end = line::line_end(rest, 0);
    line::read_line(&rest[..end])
}

// Reads what is left from a place on into the map. A refusal leaves the map as it was.
fn read_from(text: &[u8], at: usize, map: &mut [u32]) -> Result<Size, Refused>
    ensures { (said result ≡ read_text (length map.old) (drop at text.now)) × (map.new ≡ map_after (drop at text.now) map.old) }
{
    let rest = left(text, at);
    let size = scan(rest, map.len())?;
    fill(rest, map);
    Ok(size)
}

// The reader: the text, and the place it has come to.
#[derive(Clone, Copy, Debug, PartialEq, Eq)]
pub struct Reader<'a> {
    pub text: &'a [u8],
    pub at: usize,
}

// A reader at the beginning of a text.
pub fn begin<'a>(text: &'a [u8]) -> Reader<'a>
    ensures { result ≡ reader_at text.entry 0 }
{
    Reader { text, at: 0 }
}

// The line at the reader's place.
pub fn line_here<'a>(reader: Reader<'a>) -> Result<Line, NoLine>
    ensures { result ≡ line_at reader.entry.text.now reader.entry.at }
{
    line_at(reader.text, reader.at)
}

// The reader past that line.
pub fn past_line<'a>(reader: Reader<'a>) -> Reader<'a>
    ensures { result ≡ reader_at reader.entry.text (line_end reader.entry.text.now reader.entry.at) }
{
    let at = line::line_end(reader.text, reader.at);
    Reader { at, ..reader }
}

// Reads on from the reader's place into the map, its lines counted from there. A refusal leaves the map as it was.
pub fn read_on<'a, 'b>(reader: Reader<'a>, map: &'b mut [u32]) -> Result<Size, Refused>
    ensures { (said result ≡ read_text (length map.old) (drop reader.entry.at reader.entry.text.now)) × (map.new ≡ map_after (drop reader.entry.at reader.entry.text.now) map.old) }
{
    read_from(reader.text, reader.at, map)
}

// Reads a text into the map. A refusal leaves the map as it was.
pub fn read(text: &[u8], map: &mut [u32]) -> Result<Size, Refused>
    ensures answer { said result ≡ read_text (length map.old) text.now }
    ensures map { map.new ≡ map_after text.now map.old }
{
    read_on(begin(text), map)
}
