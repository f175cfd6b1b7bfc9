// Comparison signs, joins and terms, shared by tokens, sheets, stores and runs.
#![tactic(auto)]

pub mod term;

ghost use Rattle.std.specs.Prelude.{◌≡◌};
ghost use Rattle.formula.specs.Comparing.{holds, opposite, mirrored, aimed};
ghost use Rattle.formula.specs.Joining.{wants};

// The six signs of comparison.
#[derive(Clone, Copy, PartialEq, Eq, Debug)]
pub enum Comparison {
    Equal,
    Differ,
    Less,
    AtMost,
    More,
    AtLeast,
}

// The two words that join formulas.
#[derive(Clone, Copy, PartialEq, Eq, Debug)]
pub enum Join {
    And,
    Or,
}

impl Comparison {
    // Whether the number `left` compares so with the number `right`.
    pub fn holds(self, left: u16, right: u16) -> bool
        ensures { result ≡ holds self left right }
    {
        match self {
            Comparison::Equal => left == right,
            Comparison::Differ => left != right,
            Comparison::Less => left < right,
            Comparison::AtMost => left <= right,
            Comparison::More => left > right,
            Comparison::AtLeast => left >= right,
        }
    }

    // The sign that holds exactly where this one fails.
    pub fn opposite(self) -> Comparison
        ensures { result ≡ opposite self }
    {
        match self {
            Comparison::Equal => Comparison::Differ,
            Comparison::Differ => Comparison::Equal,
            Comparison::Less => Comparison::AtLeast,
            Comparison::AtMost => Comparison::More,
            Comparison::More => Comparison::AtMost,
            Comparison::AtLeast => Comparison::Less,
        }
    }

    // The sign that says the same of the two numbers exchanged.
    pub fn mirrored(self) -> Comparison
        ensures { result ≡ mirrored self }
    {
        match self {
            Comparison::Equal => Comparison::Equal,
            Comparison::Differ => Comparison::Differ,
            Comparison::Less => Comparison::More,
            Comparison::AtMost => Comparison::AtLeast,
            Comparison::More => Comparison::Less,
            Comparison::AtLeast => Comparison::AtMost,
        }
    }

    // The sign under a target: a false target turns it into its opposite.
    pub fn aimed(self, target: bool) -> Comparison
        ensures { result ≡ aimed target self }
    {
        if target { self } else { self.opposite() }
    }
}

impl Join {
    // The left side's result at which the join goes on to its right side.
    pub fn wants(self) -> bool
        ensures { result ≡ wants self }
    {
        match self {
            Join::And => true,
            Join::Or => false,
        }
    }
}
