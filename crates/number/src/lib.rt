// A number at a place of a text.
#![tactic(auto)]

ghost use Rattle.std.specs.Prelude.{◌≡◌, ◌≤◌, ◌<◌, MatchOption};
ghost use Rattle.number.specs.Number.{digit_of, number_at};

// A number read at a place, and the place after it.
#[derive(Clone, Copy, Debug, PartialEq, Eq)]
pub struct Number {
    pub value: u32,
    pub next: usize,
}

// The first place that cannot belong to what was to be read.
#[derive(Clone, Copy, Debug, PartialEq, Eq)]
pub struct Misplaced {
    pub at: usize,
}

// The worth of a digit; any other byte has none.
#[tactic(auto, unfolding(crate::specs::Number::digit_of))]
fn digit(b: u8) -> Option<u64>
    ensures { MatchOption result (9 < digit_of b) (λ d. (d ≡ digit_of b) × (d ≤ 9)) }
{
    match b {
        b'0'..=b'9' => Some(u64::from(b - b'0')),
        _ => None,
    }
}

// The number that begins at a place: digits with no leading zero but `0` itself, up to 4,294,967,295.
#[tactic(auto, using(crate::proofs::Laws::grow_zero, crate::proofs::Laws::grow_big))]
pub fn number_at(text: &[u8], at: usize) -> Result<Number, Misplaced>
    ensures { result ≡ number_at text.now at }
{
    let Some(first) = text.get(at) else {
        return Err(Misplaced { at });
    };
    let Some(mut value) = digit(*first) else {
        return Err(Misplaced { at });
    };
    for next in at + 1..text.len() {
        let Some(d) = digit(text[next]) else {
            return Ok(Number {
                value: value as u32,
                next,
            });
        };
        if value == 0 {
            return Err(Misplaced { at: next });
        }
        let grown = value * 10 + d;
        if 4294967295 < grown {
            return Err(Misplaced { at: next });
        }
        value = grown;
    }
    Ok(Number {
        value: value as u32,
        next: text.len(),
    })
}
