// Every way in which a call can be refused, and the fault that tells of it.
#![tactic(auto)]

ghost use Rattle.std.specs.Prelude.{◌≡◌};
ghost use Rattle.refusals.specs.Refusals.{at_no_place, layer_number, refusal_layer, refusal_number};

/// The part of the program that a refusal belongs to, whichever call tells of it. An answer names it by its number.
#[derive(Clone, Copy)]
pub enum Layer {
    Numbers = 1,
    Source = 2,
    Divider = 3,
    Card = 4,
    Sheet = 5,
}

/// Why a call was refused. Where several reasons hold at once, the first of this list is told. An answer names it by its number.
#[derive(Clone, Copy)]
pub enum Refusal {
    SheetTooLong = 1,
    AnswerSpaceShort = 2,
    LineLength = 3,
    UnknownLetter = 4,
    NotANumber = 5,
    CoefficientTooLarge = 6,
    ExponentOutOfRange = 7,
    RoundOutOfRange = 8,
    UnknownMode = 9,
    UnknownStep = 10,
    ClaimUnderNine = 11,
    DivisorNotSevenDigits = 12,
    OperandNotFinite = 13,
    ZeroDivisor = 14,
    CardFull = 15,
    QuotientTooLarge = 16,
}

/// A refusal and its place: a record's index in a run, a column on a sheet, and 0, as an answer writes it, elsewhere.
#[derive(Clone, Copy)]
pub struct Fault {
    pub refusal: Refusal,
    pub place: usize,
}

impl From<Layer> for u8 {
    ghost from_gives = { λ layer number. number ≡ layer_number layer };

    fn from(layer: Layer) -> u8 {
        layer as u8
    }
}

impl From<Refusal> for u8 {
    ghost from_gives = { λ refusal number. number ≡ refusal_number refusal };

    fn from(refusal: Refusal) -> u8 {
        refusal as u8
    }
}

impl From<Refusal> for Fault {
    ghost from_gives = { λ refusal fault. fault ≡ at_no_place refusal };

    fn from(refusal: Refusal) -> Fault {
        Fault { refusal, place: 0 }
    }
}

impl Refusal {
    /// The layer that the refusal belongs to.
    pub fn layer(self) -> Layer
        ensures { result ≡ refusal_layer self }
    {
        match self {
            Refusal::SheetTooLong
            | Refusal::AnswerSpaceShort
            | Refusal::LineLength
            | Refusal::UnknownLetter
            | Refusal::NotANumber => Layer::Sheet,
            Refusal::CoefficientTooLarge | Refusal::ExponentOutOfRange | Refusal::RoundOutOfRange =>
                Layer::Numbers,
            Refusal::DivisorNotSevenDigits => Layer::Source,
            Refusal::ClaimUnderNine | Refusal::OperandNotFinite | Refusal::ZeroDivisor => {
                Layer::Divider
            }
            Refusal::UnknownMode
            | Refusal::UnknownStep
            | Refusal::CardFull
            | Refusal::QuotientTooLarge => Layer::Card,
        }
    }
}
