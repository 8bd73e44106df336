// The answer to a line.
ghost use Rattle.std.specs.Prelude.{◌≡◌, ℕ, List, take, Some};
ghost use Rattle.divide.specs.Answers.{answer_text, answered, defect_text, problem_text, quotient_text, refused};

use crate::request::{Defect, Request};
use divider::{QuotientWord, divide_words};
use reciprocal::Source;
use refusals::{Fault, Refusal};
use rounding::Mode;
use std::fmt;
use text::{Answers, Line, WordText};

/// The quotient that a line asks for.
#[derive(Clone, Copy)]
pub struct Quotient(pub QuotientWord);

/// Why a line has no quotient: it is refused, or the line of this number is malformed.
#[derive(Clone, Copy)]
pub enum Problem {
    Refused(Refusal),
    Malformed(u64, Defect),
}

impl From<Fault> for Problem {
    ghost from_gives = { λ fault problem. problem ≡ refused fault };

    fn from(fault: Fault) -> Problem {
        Problem::Refused(fault.refusal)
    }
}

/// The answer to `line` over `source`. What is kept of a line decides it, however long the line is.
pub fn answer<S: Source>(source: &S, line: &Line) -> Result<Quotient, Problem>
    ensures value { result ≡ answered (S.Source.claim source.now) line.now.number line.now.text }
    ensures whole_line { (text : List ℕ) → line.now.text ≡ take 33 text → result ≡ answered (S.Source.claim source.now) line.now.number text }
{
    let malformed = |defect| Problem::Malformed(line.number(), defect);
    let request = Request::read(line.text()).map_err(malformed)?;
    let mode = Mode::try_from(request.mode)?;
    let quotient = divide_words(source, mode, request.pair)?;
    Ok(Quotient(quotient))
}

/// What answers each line with its quotient over a source.
#[derive(Drop)]
pub struct Divisions<'a, S>(pub &'a S);

impl<S: Source> Answers for Divisions<'_, S> {
    ghost answer_text = { λ d l. answer_text (answered (S.Source.claim d.0.now) l.number l.text) };

    type Answer = Quotient;

    type Problem = Problem;

    fn answer(&self, line: &Line) -> Result<Quotient, Problem> {
        answer(self.0, line)
    }
}

impl fmt::Display for Quotient {
    ghost output = { λ q. Some (quotient_text q.0) };

    fn fmt<W: fmt::Write>(&self, f: &mut fmt::Formatter<W>) -> fmt::Result {
        write!(f, "{} {}", WordText(self.0.word), u8::from(self.0.flags))
    }
}

impl fmt::Display for Problem {
    ghost output = { λ p. Some (problem_text p) };

    fn fmt<W: fmt::Write>(&self, f: &mut fmt::Formatter<W>) -> fmt::Result {
        match *self {
            Problem::Refused(refusal) => write!(f, "R {}", u8::from(refusal)),
            Problem::Malformed(line, defect) => write!(f, "? line {line}: {defect}"),
        }
    }
}

impl fmt::Display for Defect {
    ghost output = { λ d. Some (defect_text d) };

    fn fmt<W: fmt::Write>(&self, f: &mut fmt::Formatter<W>) -> fmt::Result {
        f.write_str(match self {
            Defect::Mode => "the mode is not one to nine digits",
            Defect::Dividend => "the dividend is not eight hexadecimal digits followed by a blank",
            Defect::Divisor => "the divisor is not eight hexadecimal digits at the end of the line",
        })
    }
}
