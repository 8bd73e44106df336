// Words and numbers as text, and text line by line.
#![tactic(auto)]

mod answers;
mod display;
mod line;
mod number;
mod word;

pub use answers::{Answers, answer_lines};
pub use display::{NumberText, WordText};
pub use line::Line;
pub use number::{read_number, read_signed};
pub use word::{read_word_digits, word_digits};
