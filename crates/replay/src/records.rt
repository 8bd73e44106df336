// The records of runs: pairs of words and golf rounds.
use runs::{Pair, Round};
use text::{read_number, read_signed, read_word_digits};

/// Two words with this byte between them.
pub(crate) fn read_words(text: &[u8], between: u8) -> Option<Pair> {
    let mut words = text.splitn(2, |byte| *byte == between);
    Some(Pair {
        dividend: read_word_digits(words.next()?)?,
        divisor: read_word_digits(words.next()?)?,
    })
}

/// A pair of a run.
pub(crate) fn read_pair(text: &[u8]) -> Option<Pair> {
    read_words(text, b'/')
}

/// A golf round of a run. A line of `season` has blanks between its fields, and a point in its rating: only the order of the fields is shared.
pub(crate) fn read_round(text: &[u8]) -> Option<Round> {
    let mut parts = text.splitn(4, |byte| *byte == b',');
    Some(Round {
        gross: read_number(parts.next()?)?,
        rating: read_number(parts.next()?)?,
        adjustment: read_signed(parts.next()?)?,
        slope: read_number(parts.next()?)?,
    })
}
