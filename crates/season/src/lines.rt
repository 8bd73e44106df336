// Lines as a secretary types them, and the round on a line.
use runs::Round;
use text::{read_number, read_signed};

/// A line with something on it that is neither a round nor a comment.
#[derive(Clone, Copy)]
pub struct Malformed;

// A line without the blanks, tabs and carriage returns at its ends.
fn without_margins(line: &[u8]) -> &[u8] {
    // One loop for each end: one for both looks at the left end again at each byte of the right, in half as much time again.
    let mut text = line;
    while let [b' ' | b'\t' | b'\r', inner @ ..] = text {
        text = inner;
    }
    while let [inner @ .., b' ' | b'\t' | b'\r'] = text {
        text = inner;
    }
    text
}

// The tenths of one to eight digits, a point and a digit.
fn read_tenths(text: &[u8]) -> Option<u32> {
    let [whole @ .., b'.', tenth] = text else {
        return None;
    };
    if whole.len() > 8 {
        return None;
    }
    let tenth = char::from(*tenth).to_digit(10)?;
    read_number(whole)?.checked_mul(10)?.checked_add(tenth)
}

// The round that four fields give. A run's rounds in `replay` have commas between, and their ratings are whole tenths: only the order of the
// fields is shared.
fn read_round(text: &[u8]) -> Option<Round> {
    let mut fields = text
        .split(|byte| matches!(byte, b' ' | b'\t'))
        .filter(|field| !field.is_empty());
    let round = Round {
        gross: read_number(fields.next()?)?,
        rating: read_tenths(fields.next()?)?,
        adjustment: read_signed(fields.next()?)?,
        slope: read_number(fields.next()?)?,
    };
    fields.next().is_none().then_some(round)
}

/// What a line says, whatever its margins: nothing if it is blank or a comment.
pub(crate) fn read_line(line: &[u8]) -> Option<Result<Round, Malformed>> {
    match without_margins(line) {
        [] | [b'#', ..] => None,
        text => Some(read_round(text).ok_or(Malformed)),
    }
}
