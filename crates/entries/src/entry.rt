// An entry line in its fields.

use crate::field::Field;

/// The fields of two numbers: their coefficients and exponents.
#[derive(Clone, Copy)]
pub struct Operands<'a> {
    pub dividend: Field<'a>,
    pub dividend_exponent: Field<'a>,
    pub divisor: Field<'a>,
    pub divisor_exponent: Field<'a>,
}

/// An entry of each letter, in the fields that it uses and the one that it leaves blank.
#[derive(Clone, Copy)]
pub enum Entry<'a> {
    Mode(Field<'a>, Field<'a>),
    Divide(Operands<'a>),
    Post(Operands<'a>),
    Totals(Field<'a>),
    Clear(Field<'a>),
    Lower(Field<'a>),
}
