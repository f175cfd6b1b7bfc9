// Tokens: words, numbers and signs. A word borrows the text's own bytes.
use formula::Comparison;

#[derive(Clone, Copy, PartialEq, Eq, Debug)]
pub enum Sign {
    Open,
    Close,
    Comma,
    Semicolon,
    Colon,
    Plus,
    Minus,
    Compare(Comparison),
}

#[derive(Clone, Copy, PartialEq, Eq, Debug)]
pub enum Token<'a> {
    Word(&'a [u8]),
    Number(u16),
    Sign(Sign),
}

// A token with the offsets of its first byte and of the byte after its last.
#[derive(Clone, Copy, PartialEq, Eq, Debug)]
pub struct Placed<'a> {
    pub token: Token<'a>,
    pub place: usize,
    pub end: usize,
}
