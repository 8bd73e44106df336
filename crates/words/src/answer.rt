// The answer to a line.
ghost use Rattle.std.specs.Prelude.{◌≡◌, ℕ, List, take, Some};
ghost use Rattle.words.specs.Answers.{answered, word_answer, no_word, answer_text};

use decimal::{canonical_word, read_word};
use std::fmt;
use text::{Answers, Line, NumberText, WordText, read_word_digits};

/// The word of a line.
#[derive(Clone, Copy)]
pub struct Word(pub u32);

/// The line of this number has no word.
#[derive(Clone, Copy)]
pub struct NotAWord(pub u64);

/// The answer to `line`. What is kept of a line decides it, however long the line is.
pub fn answer(line: &Line) -> Result<Word, NotAWord>
    ensures value { result ≡ answered line.now.number line.now.text }
    ensures whole_line { (text : List ℕ) → line.now.text ≡ take 33 text → result ≡ answered line.now.number text }
{
    read_word_digits(line.text())
        .map(Word)
        .ok_or(NotAWord(line.number()))
}

/// What answers each line with its word.
pub struct Words;

impl Answers for Words {
    ghost answer_text = { λ w l. answer_text (answered l.number l.text) };

    type Answer = Word;

    type Problem = NotAWord;

    fn answer(&self, line: &Line) -> Result<Word, NotAWord> {
        answer(line)
    }
}

impl fmt::Display for Word {
    ghost output = { λ w. Some (word_answer w.0) };

    fn fmt<W: fmt::Write>(&self, f: &mut fmt::Formatter<W>) -> fmt::Result {
        let number = NumberText(read_word(self.0));
        let canonical = WordText(canonical_word(self.0));
        write!(f, "{} {} {}", WordText(self.0), number, canonical)
    }
}

impl fmt::Display for NotAWord {
    ghost output = { λ n. Some (no_word n.0) };

    fn fmt<W: fmt::Write>(&self, f: &mut fmt::Formatter<W>) -> fmt::Result {
        write!(f, "? line {}: not eight hexadecimal digits", self.0)
    }
}
