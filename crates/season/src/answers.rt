// What is told of a round and of the season.
ghost use Rattle.std.specs.Prelude.{◌≡◌, ◌+◌, ◌*◌, Some};
ghost use Rattle.season.specs.declared.answers.Problem.TheVariants.{Malformed, Refused};
ghost use Rattle.season.specs.Texts.{tenths_text};

use crate::lines;
use crate::posting::Season;
use card::Card;
use refusals::{Fault, Refusal};
use std::fmt;

/// What a round adds to a card, in tenths.
#[derive(Clone, Copy)]
pub struct Added {
    pub floor: i64,
    pub value: i64,
    pub ceiling: i64,
}

/// Why a line adds nothing.
#[derive(Clone, Copy)]
pub enum Problem {
    Refused(Refusal),
    Malformed,
}

// Shows a number of tenths as `-0.4`.
#[derive(Clone, Copy)]
struct Tenths(i64);

// The hundredths by which the figure is away from the exact sum at most: five for half a tenth.
fn farthest(card: &Card) -> u32
    ensures { result ≡ 5 * (card.now.near + 2 * card.now.far) }
{
    5 * (card.near + 2 * card.far)
}

fn reason(refusal: Refusal) -> &'static str {
    match refusal {
        Refusal::RoundOutOfRange => {
            "gross must be 18 to 399, rating 30.0 to 99.9, adjustment -1 to 3, slope 55 to 155"
        }
        Refusal::CardFull => "10000 rounds are posted",
        _ => "the round cannot be posted",
    }
}

impl From<Fault> for Problem {
    ghost from_gives = { λ fault problem. problem ≡ Refused fault.refusal };

    fn from(fault: Fault) -> Problem {
        Problem::Refused(fault.refusal)
    }
}

impl From<lines::Malformed> for Problem {
    ghost from_gives = { λ _ problem. problem ≡ Malformed };

    fn from(_: lines::Malformed) -> Problem {
        Problem::Malformed
    }
}

impl fmt::Display for Tenths {
    ghost output = { λ t. Some (tenths_text t.0) };

    fn fmt<W: fmt::Write>(&self, f: &mut fmt::Formatter<W>) -> fmt::Result {
        let sign = if self.0 < 0 { "-" } else { "" };
        let magnitude = self.0.unsigned_abs();
        write!(f, "{sign}{}.{}", magnitude / 10, magnitude % 10)
    }
}

impl fmt::Display for Added {
    fn fmt<W: fmt::Write>(&self, f: &mut fmt::Formatter<W>) -> fmt::Result {
        let floor = Tenths(self.floor);
        let value = Tenths(self.value);
        let ceiling = Tenths(self.ceiling);
        write!(f, "floor {floor}, value {value}, ceiling {ceiling}")
    }
}

impl fmt::Display for Problem {
    fn fmt<W: fmt::Write>(&self, f: &mut fmt::Formatter<W>) -> fmt::Result {
        match *self {
            Problem::Refused(refusal) => {
                write!(f, "refused with {}: {}", u8::from(refusal), reason(refusal))
            }
            Problem::Malformed => write!(
                f,
                "expected GROSS RATING ADJUSTMENT SLOPE, such as 85 72.3 0 128"
            ),
        }
    }
}

/// The totals, the counts and what they say of the exact sum.
impl fmt::Display for Season {
    fn fmt<W: fmt::Write>(&self, f: &mut fmt::Formatter<W>) -> fmt::Result {
        let card = self.card;
        let (low, figure, high) = (Tenths(card.low), Tenths(card.figure), Tenths(card.high));
        let (posted, near, far) = (card.posted, card.near, card.far);
        let plural = if posted == 1 { "" } else { "s" };
        let hundredths = farthest(&card);
        let (whole, rest) = (hundredths / 100, hundredths % 100);
        writeln!(f, "season: low {low}, figure {figure}, high {high}")?;
        writeln!(f, "counts: posted {posted}, near {near}, far {far}")?;
        write!(
            f,
            "The exact sum of the {posted} differential{plural} posted "
        )?;
        write!(f, "is at least {low} and at most {high}, ")?;
        write!(f, "and it lies within {whole}.{rest:02} of {figure}.")
    }
}
