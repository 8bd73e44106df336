// The words of decimal32: any word read, any number written. A word is a plain `u32`, so these are no `From`, which would say that 7 is the
// number 7.
ghost use Rattle.std.specs.Prelude.{◌≡◌, ◌<◌, true};
ghost use Rattle.decimal.specs.Numbers.{datum};
ghost use Rattle.decimal.specs.Words.{decimal32, number_of, word_of, canonical, sign_of, sign_bit, sign_field, declets_field, combination_of, declets_value, declets_of, exponent_lead, leading_digit, number_of_fields, word_of_fields};

use crate::declet::{read_declet, write_declet};
use crate::number::{Finite, Nan, Number};
use rounding::Sign;

// The sign of a word, its first bit.
fn read_sign(word: u32) -> Sign
    ensures { result ≡ sign_of (sign_field decimal32 word) }
{
    if word < 0x8000_0000 {
        Sign::Plus
    } else {
        Sign::Minus
    }
}

// The six digits of the two declets of a word.
fn read_digits(word: u32) -> u32
    ensures value { result ≡ declets_value 2 (declets_field decimal32 word) }
    ensures small { result < 1000000 }
{
    read_declet(word / 1024) * 1000 + read_declet(word)
}

// The leading digit that a combination field gives.
fn read_leading_digit(combination: u32) -> u32
    ensures value { result ≡ leading_digit combination }
    ensures small { result < 10 }
{
    if combination < 24 {
        combination % 8
    } else {
        8 + combination % 2
    }
}

// The exponent's two leading bits that a combination field gives.
fn read_exponent_lead(combination: u32) -> u32
    requires { combination < 30 }
    ensures value { result ≡ exponent_lead combination }
    ensures small { result < 3 }
{
    if combination < 24 {
        combination / 8
    } else {
        combination / 2 % 4
    }
}

// The number of a word's fields. What reads and what writes them differ in the last, digits or declets, so that one struct of them would
// serve neither.
fn read_fields(sign: Sign, combination: u32, continuation: u32, digits: u32) -> Number
    requires { (combination < 32) × ((continuation < 64) × (digits < 1000000)) }
    ensures { datum result ≡ number_of_fields decimal32 sign combination continuation digits }
{
    if combination < 30 {
        let coefficient = read_leading_digit(combination) * 1_000_000 + digits;
        let exponent = (read_exponent_lead(combination) * 64 + continuation) as i32 - 101;
        return Number::Finite(Finite {
            sign,
            coefficient,
            exponent,
        });
    }
    if combination == 30 {
        return Number::Infinite(sign);
    }
    let nan = Nan {
        sign,
        payload: digits,
    };
    if continuation < 32 {
        Number::QuietNan(nan)
    } else {
        Number::SignallingNan(nan)
    }
}

// The number that a word stands for, by its fields.
fn number(word: u32) -> Number
    ensures { datum result ≡ number_of decimal32 word }
{
    let head = word / 1_048_576;
    read_fields(
        read_sign(word),
        head / 64 % 32,
        head % 64,
        read_digits(word),
    )
}

/// The number that `word` stands for. Every word is read, and a canonical one is the word of what was read.
pub fn read_word(word: u32) -> Number
    ensures number { datum result ≡ number_of decimal32 word }
    ensures same_word { canonical decimal32 word ≡ true → word_of decimal32 (datum result) ≡ word }
{
    number(word)
}

// The combination field of the exponent's two leading bits and the leading digit.
fn combine(lead: u32, digit: u32) -> u32
    requires { (lead < 3) × (digit < 10) }
    ensures value { result ≡ combination_of lead digit }
    ensures small { result < 32 }
{
    if digit < 8 {
        lead * 8 + digit
    } else {
        24 + lead * 2 + digit % 2
    }
}

// The two declets of the last six digits of `digits`.
fn write_digits(digits: u32) -> u32
    ensures value { result ≡ declets_of 2 digits }
    ensures small { result < 1048576 }
{
    write_declet(digits / 1000) * 1024 + write_declet(digits)
}

// The word of its four fields.
fn assemble(sign: Sign, combination: u32, continuation: u32, declets: u32) -> u32
    requires { (combination < 32) × ((continuation < 64) × (declets < 1048576)) }
    ensures { result ≡ word_of_fields decimal32 (sign_bit sign) combination continuation declets }
{
    let first = match sign {
        Sign::Plus => 0,
        Sign::Minus => 32,
    };
    ((first + combination) * 64 + continuation) * 1_048_576 + declets
}

// The word of a number, by its kind.
fn word(number: &Number) -> u32
    ensures { result ≡ word_of decimal32 (datum number.now) }
{
    match number {
        Number::Finite(f) => {
            let biased = (f.exponent + 101) as u32;
            let combination = combine(biased / 64, f.coefficient / 1_000_000);
            assemble(
                f.sign,
                combination,
                biased % 64,
                write_digits(f.coefficient),
            )
        }
        Number::Infinite(sign) => assemble(*sign, 30, 0, 0),
        Number::QuietNan(nan) => assemble(nan.sign, 31, 0, write_digits(nan.payload)),
        Number::SignallingNan(nan) => assemble(nan.sign, 31, 32, write_digits(nan.payload)),
    }
}

/// The word of `number`, which is canonical. Read again it is the same number.
pub fn write_word(number: &Number) -> u32
    ensures word { result ≡ word_of decimal32 (datum number.now) }
    ensures same_number { number_of decimal32 result ≡ datum number.now }
    ensures canonical { canonical decimal32 result ≡ true }
{
    word(number)
}

/// The canonical word of the number that `word` stands for.
pub fn canonical_word(word: u32) -> u32
    ensures word { result ≡ word_of decimal32 (number_of decimal32 word) }
    ensures same_number { number_of decimal32 result ≡ number_of decimal32 word }
    ensures same_word { canonical decimal32 word ≡ true → result ≡ word }
    ensures canonical { canonical decimal32 result ≡ true }
{
    write_word(&read_word(word))
}
