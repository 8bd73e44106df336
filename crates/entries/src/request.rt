// What an entry line asks for.
use decimal::Finite;
use rounding::Mode;

/// To set a mode, to divide or post two numbers, to tell the totals, to clear the card or to lower its flags.
#[derive(Clone, Copy)]
pub enum Request {
    SetMode(Mode),
    Divide(Finite, Finite),
    Post(Finite, Finite),
    Totals,
    Clear,
    Lower,
}
