// What a line is answered.
use crate::shape::Shape;
use accounts::{Answer, NotDone, Outcome};
use card::Card;
use refusals::Fault;
use runs::Ran;
use std::fmt;
use text::WordText;

/// A line that is none of the lines expected there, by its number.
#[derive(Clone, Copy)]
pub struct Malformed {
    pub line: usize,
    pub expected: Shape,
}

/// Shows what the libraries answer as this program tells it. Only it needs their answers as text, so they have none of their own.
#[derive(Clone, Copy)]
pub struct Told<T>(pub T);

impl fmt::Display for Malformed {
    fn fmt<W: fmt::Write>(&self, f: &mut fmt::Formatter<W>) -> fmt::Result {
        write!(f, "? line {}: expected {}", self.line, self.expected)
    }
}

/// A refusal by its number, its layer and its place.
impl fmt::Display for Told<Fault> {
    fn fmt<W: fmt::Write>(&self, f: &mut fmt::Formatter<W>) -> fmt::Result {
        let Fault { refusal, place } = self.0;
        let (number, layer) = (u8::from(refusal), u8::from(refusal.layer()));
        write!(f, "refused {number} {layer} {place}")
    }
}

impl fmt::Display for Told<Ran> {
    fn fmt<W: fmt::Write>(&self, f: &mut fmt::Formatter<W>) -> fmt::Result {
        let Ran { posted, fault } = self.0;
        match fault {
            Some(fault) => write!(f, "{} after {posted}", Told(fault)),
            None => write!(f, "ok {posted}"),
        }
    }
}

impl fmt::Display for Told<Outcome> {
    fn fmt<W: fmt::Write>(&self, f: &mut fmt::Formatter<W>) -> fmt::Result {
        match self.0 {
            Ok(Answer::Done) => write!(f, "ok"),
            Ok(Answer::Quotient(quotient)) => {
                let flags = u8::from(quotient.flags);
                write!(f, "ok {} {flags}", WordText(quotient.word))
            }
            Ok(Answer::Run(ran)) => write!(f, "{}", Told(ran)),
            Err(NotDone::Refused(fault)) => write!(f, "{}", Told(fault)),
            Err(NotDone::NoDraft) => write!(f, "no draft"),
        }
    }
}

impl fmt::Display for Told<Card> {
    fn fmt<W: fmt::Write>(&self, f: &mut fmt::Formatter<W>) -> fmt::Result {
        let card = self.0;
        write!(f, "card {} {} {} ", card.low, card.figure, card.high)?;
        write!(f, "{} {} {} ", card.posted, card.near, card.far)?;
        write!(f, "{}", u8::from(card.flags))
    }
}
