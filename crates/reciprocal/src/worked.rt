// The reciprocals of 3,000,000, worked out by the three-digit table and by one and two layers over it.
ghost use Rattle.std.specs.Prelude.{◌≡◌, Ok};
ghost use Rattle.reciprocal.specs.Worked.{WorkedReciprocals, worked_numbers};

use crate::newton::{Newton, TWO_LAYERS};
use crate::source::Source;
use crate::table::ThreeDigitTable;
use refusals::Fault;

/// The three reciprocals of 3,000,000.
pub fn worked_reciprocals() -> Result<[u64; 3], Fault>
    ensures computed { result ≡ Ok worked_numbers }
    ensures defined { WorkedReciprocals }
{
    let table = ThreeDigitTable;
    let layer = Newton(table);
    let divisor = 3_000_000;
    Ok([
        table.ask(divisor)?,
        layer.ask(divisor)?,
        TWO_LAYERS.ask(divisor)?,
    ])
}
