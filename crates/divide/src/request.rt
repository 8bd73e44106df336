// What a line asks for.
ghost use Rattle.std.specs.Prelude.{◌≡◌, ℕ, List, take};
ghost use Rattle.std.specs.Option.{option_map};
ghost use Rattle.divide.specs.Requests.{field_in, request_in};

use divider::Pair;
use text::{read_number, read_word_digits};

/// The quotient of two words in the mode of this number, which is judged behind the words and so stays a number here.
#[derive(Clone, Copy)]
pub struct Request {
    pub mode: u32,
    pub pair: Pair,
}

/// The part of a line that is not as it should be.
#[derive(Clone, Copy)]
pub enum Defect {
    Mode,
    Dividend,
    Divisor,
}

// The field that the first blank ends, and what stands behind it.
fn split_field(text: &[u8]) -> Option<(&[u8], &[u8])>
    ensures { option_map (λ f. (f.0.now, f.1.now)) result ≡ field_in text.now }
{
    let blank = text.iter().position(|byte| *byte == b' ')?;
    Some((&text[..blank], &text[blank + 1..]))
}

fn read_request(text: &[u8]) -> Result<Request, Defect>
    ensures { result ≡ request_in text.now }
{
    let (mode, words) = split_field(text).ok_or(Defect::Mode)?;
    let mode = read_number(mode).ok_or(Defect::Mode)?;
    let (dividend, divisor) = split_field(words).ok_or(Defect::Dividend)?;
    let pair = Pair {
        dividend: read_word_digits(dividend).ok_or(Defect::Dividend)?,
        divisor: read_word_digits(divisor).ok_or(Defect::Divisor)?,
    };
    Ok(Request { mode, pair })
}

impl Request {
    /// What the text asks for, or the first thing that is wrong with it, from the left. The first 33 bytes decide it, however long the text is.
    pub fn read(text: &[u8]) -> Result<Request, Defect>
        ensures value { result ≡ request_in text.now }
        ensures whole_line { (line : List ℕ) → text.now ≡ take 33 line → result ≡ request_in line }
    {
        read_request(text)
    }
}
