// The kinds of tokens, each with an example, and with the words that name it to a person.
ghost use Rattle.std.specs.Prelude.{◌≡◌};
ghost use Rattle.advice.specs.Permitted.{EveryKind, kinds, example_of, name_of};

#[derive(Clone, Copy, Debug, PartialEq, Eq)]
pub enum Kind {
    Name,
    Number,
    Field,
    Rule,
    Mark,
    And,
    Or,
    Not,
    Pick,
    Open,
    Close,
    Comma,
    Semicolon,
    Colon,
    Plus,
    Minus,
    Compare,
}

impl Kind {
    // Every kind, for a list of all that may stand at a place.
    pub fn all() -> [Kind; 17]
        ensures order { result ≡ kinds }
        ensures every { EveryKind result }
    {
        [
            Kind::Name,
            Kind::Number,
            Kind::Field,
            Kind::Rule,
            Kind::Mark,
            Kind::And,
            Kind::Or,
            Kind::Not,
            Kind::Pick,
            Kind::Open,
            Kind::Close,
            Kind::Comma,
            Kind::Semicolon,
            Kind::Colon,
            Kind::Plus,
            Kind::Minus,
            Kind::Compare,
        ]
    }

    // A token of the kind.
    pub(crate) fn example(self) -> &'static [u8]
        ensures { result.now ≡ example_of self }
    {
        match self {
            Kind::Name => b"a",
            Kind::Number => b"0",
            Kind::Field => b"field",
            Kind::Rule => b"rule",
            Kind::Mark => b"mark",
            Kind::And => b"and",
            Kind::Or => b"or",
            Kind::Not => b"not",
            Kind::Pick => b"pick",
            Kind::Open => b"(",
            Kind::Close => b")",
            Kind::Comma => b",",
            Kind::Semicolon => b";",
            Kind::Colon => b":",
            Kind::Plus => b"+",
            Kind::Minus => b"-",
            Kind::Compare => b"=",
        }
    }

    // The words that name the kind: its token, where it has only one.
    pub(crate) fn name(self) -> &'static [u8]
        ensures { result.now ≡ name_of self }
    {
        match self {
            Kind::Name => b"a name",
            Kind::Number => b"a number",
            Kind::Compare => b"one of = /= < <= > >=",
            _ => self.example(),
        }
    }
}
