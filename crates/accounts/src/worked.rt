// Lines that are worked out by hand.
ghost use Rattle.std.specs.Prelude.{◌≡◌, [], ◌∷◌, pos};
ghost use Rattle.accounts.specs.Worked.{WorkedLines, totals_of_run};

use card::{Card, Setting};
use reciprocal::TWO_LAYERS;
use runs::{Pair, Record, Round, run};

// Low, figure and high after a run in mode 1 on a new card of step 1, over two layers on the three-digit table.
fn totals_of<R: Record>(records: &[R]) -> [i64; 3]
    ensures { result ≡ totals_of_run R.Record.operands_or_fault records.now }
{
    let mut setting = Setting::new();
    let mut card = Card::open(1).unwrap();
    let _ran = run(&mut card, &mut setting, &TWO_LAYERS, 1, records);
    [card.low, card.figure, card.high]
}

/// Low, figure and high at step 1 in mode 1: of 1 / 3, -1 / 4 and 2 / 1, and of a golf round of gross 85, rating 72.3, adjustment 0 and slope 128.
/// The definitions give the same by computation, with every other line that was worked out by hand.
pub fn worked_lines() -> ([i64; 3], [i64; 3])
    ensures totals { result ≡ (pos 20 ∷ (pos 21 ∷ (pos 22 ∷ [])), pos 112 ∷ (pos 112 ∷ (pos 113 ∷ []))) }
    ensures definitions { WorkedLines }
{
    let pairs = [
        Pair {
            dividend: 0x2250_0001,
            divisor: 0x2250_0003,
        },
        Pair {
            dividend: 0xA250_0001,
            divisor: 0x2250_0004,
        },
        Pair {
            dividend: 0x2250_0002,
            divisor: 0x2250_0001,
        },
    ];
    let rounds = [Round {
        gross: 85,
        rating: 723,
        adjustment: 0,
        slope: 128,
    }];
    (totals_of(&pairs), totals_of(&rounds))
}
