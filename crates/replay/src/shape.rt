// What a line should look like.
use std::fmt;

/// The shape of the first line, of each call's lines, and any of these calls.
#[derive(Clone, Copy)]
pub enum Shape {
    Step,
    Mode,
    Divide,
    Begin,
    Round,
    Post,
    Strike,
    Pairs,
    Rounds,
    Lower,
    Clear,
    AnyCall,
}

impl fmt::Display for Shape {
    fn fmt<W: fmt::Write>(&self, f: &mut fmt::Formatter<W>) -> fmt::Result {
        f.write_str(match self {
            Shape::Step => "step N",
            Shape::Mode => "mode N",
            Shape::Divide => "divide WORD WORD",
            Shape::Begin => "begin WORD WORD",
            Shape::Round => "round K",
            Shape::Post => "post K",
            Shape::Strike => "strike K",
            Shape::Pairs => "pairs MODE WORD/WORD ...",
            Shape::Rounds => "rounds MODE GROSS,RATING,ADJUSTMENT,SLOPE ...",
            Shape::Lower => "lower",
            Shape::Clear => "clear",
            Shape::AnyCall => {
                "mode, divide, begin, round, post, strike, pairs, rounds, lower or clear"
            },
        })
    }
}
