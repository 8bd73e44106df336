// Words as eight hexadecimal digits.
ghost use Rattle.std.specs.Prelude.{◌≡◌, ◌/◌, ◌%◌, ◌^◌, ◌<◌, Some};
ghost use Rattle.text.specs.Texts.{hex_digit, word_text, word_in};

use crate::number::read_digits;
use std::array;

// The digit of `word` that has this many behind it. The library's digits past nine are small letters.
fn digit(word: u32, behind: u32) -> u8
    requires { behind < 8 }
    ensures { result ≡ hex_digit (word / 16 ^ behind % 16) }
{
    match word / 16u32.pow(behind) % 16 {
        value @ 0..=9 => b'0' + value as u8,
        value => b'A' + (value - 10) as u8,
    }
}

/// The eight hexadecimal digits of `word`, in capitals. They are read as `word` again.
pub fn word_digits(word: u32) -> [u8; 8]
    ensures value { result ≡ word_text word }
    ensures same_word { word_in result ≡ Some word }
{
    array::from_fn(|i| digit(word, 7 - i as u32))
}

/// The word that `text` writes as exactly eight hexadecimal digits of either case.
pub fn read_word_digits(text: &[u8]) -> Option<u32>
    ensures { result ≡ word_in text.now }
{
    match text.len() {
        8 => read_digits(text, 16),
        _ => None,
    }
}
