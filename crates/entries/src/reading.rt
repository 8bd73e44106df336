// Entry lines read.
ghost use Rattle.std.specs.Prelude.{◌≡◌, ◌≤◌, length};
ghost use Rattle.entries.specs.Entries.{columns, entry_in, operands_in, part, parts, seen_result};

use crate::entry::{Entry, Operands};
use crate::field::Field;
use refusals::{Fault, Refusal};

// The columns from `first` to `last`.
fn field(line: &[u8], first: usize, last: usize) -> Field<'_>
    requires { (1 ≤ first) × ((first ≤ last) × (last ≤ length line.now)) }
    ensures { part result ≡ columns first last line.now }
{
    Field {
        text: &line[first - 1..last],
        column: first,
    }
}

fn operands(line: &[u8]) -> Operands<'_>
    requires { length line.now ≡ 29 }
    ensures { parts result ≡ operands_in line.now }
{
    Operands {
        dividend: field(line, 2, 10),
        dividend_exponent: field(line, 11, 15),
        divisor: field(line, 16, 24),
        divisor_exponent: field(line, 25, 29),
    }
}

impl<'a> Entry<'a> {
    /// The entry on a line. Refuses a line that has not 29 characters, and then a letter that is none.
    pub fn on(line: &'a [u8]) -> Result<Entry<'a>, Fault>
        ensures { seen_result result ≡ entry_in line.now }
    {
        if line.len() != 29 {
            return Err(Fault {
                refusal: Refusal::LineLength,
                place: 1,
            });
        }
        match char::from(line[0]) {
            'M' => Ok(Entry::Mode(field(line, 2, 10), field(line, 11, 29))),
            'D' => Ok(Entry::Divide(operands(line))),
            'P' => Ok(Entry::Post(operands(line))),
            'T' => Ok(Entry::Totals(field(line, 2, 29))),
            'C' => Ok(Entry::Clear(field(line, 2, 29))),
            'F' => Ok(Entry::Lower(field(line, 2, 29))),
            _ => Err(Fault {
                refusal: Refusal::UnknownLetter,
                place: 1,
            }),
        }
    }
}
