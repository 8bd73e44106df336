// A text answered line by line.
ghost use Rattle.std.specs.Prelude.{◌≡◌, ◌++◌, ◌∷◌, [], Some, IfSome, OnOk};
ghost use Rattle.std.specs.Io.KnownBytes.{Appends};
ghost use Rattle.text.specs.Lines.{lines_in};
ghost use Rattle.text.specs.Answers.{outcome_text, answers_from, rest_text};

use crate::line::Line;
use std::fmt::Display;
use std::io;
use std::io::{ErrorKind, Read, Write};

/// What answers a line, or says why it can't.
pub trait Answers {
    ghost use Rattle.std.specs.Prelude.{List, ℕ};
    ghost use Rattle.text.specs.Lines.{Known};

    /// What is written of the outcome at a line.
    ghost answer_text: { Self → Known → List ℕ };

    type Answer: Display + Drop;

    type Problem: Display + Drop;

    fn answer(&self, line: &Line) -> Result<Self::Answer, Self::Problem>
        ensures { outcome_text Self.Answer.output Self.Problem.output result ≡ Some (answer_text self.now line.now) };
}

// The outcome at a line, and a line feed.
fn answer_line<W: Write, A: Answers>(line: &Line, output: &mut W, answers: &A) -> io::Result<()>
    ensures { OnOk result (Appends (W.contents output.old) (W.contents output.new) (A.answer_text answers.now line.now ++ (10 ∷ []))) }
{
    match answers.answer(line) {
        Ok(answer) => writeln!(output, "{answer}"),
        Err(problem) => writeln!(output, "{problem}"),
    }
}

// The outcome at a last line that no line feed ends, if it has a byte.
fn answer_rest<W: Write, A: Answers>(line: &Line, output: &mut W, answers: &A) -> io::Result<()>
    ensures { OnOk result (Appends (W.contents output.old) (W.contents output.new) (rest_text (A.answer_text answers.now) line.now)) }
{
    if line.text().is_empty() {
        return Ok(());
    }
    answer_line(line, output, answers)
}

/// Writes the outcome at each line of `input`, and a line feed behind each.
pub fn answer_lines<R: Read, W: Write, A: Answers>(
    input: &mut R,
    output: &mut W,
    answers: &A,
) -> io::Result<()>
    ensures { OnOk result (IfSome (R.remaining input.old) (λ text. Appends (W.contents output.old) (W.contents output.new) (answers_from (A.answer_text answers.now) 1 (lines_in text)))) }
{
    let mut buffer = [0; 4096];
    let mut line = Line::first();
    // What waits on input has to count, so that it ends. The library's iterator of a reader's bytes misses the bar of speed, which is that
    // `divide` takes no more instructions on its stored lines than it did: 37.2 million on 8,000 lines in place of 14.7.
    for _ in 0..u64::MAX {
        let count = input.read(&mut buffer)?;
        if count == 0 {
            return answer_rest(&line, output, answers);
        }
        for byte in &buffer[..count] {
            if let Some(ended) = line.take(*byte) {
                answer_line(&ended, output, answers)?;
            }
        }
    }
    Err(ErrorKind::FileTooLarge.into())
}
