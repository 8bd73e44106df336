// The sign of a number.

#[derive(Clone, Copy)]
pub enum Sign {
    Plus,
    Minus,
}
