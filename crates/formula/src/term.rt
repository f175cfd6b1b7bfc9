// Terms of comparisons and calls, whatever a name is in them: a span of a text, or the number of a field or parameter.
ghost use Rattle.std.specs.Prelude.{◌≡◌, ◌<◌};
ghost use Rattle.formula.specs.Trees.{shifted};
ghost use Rattle.formula.specs.Shifting.{shift_of};

// `+` or `-` and a number.
#[derive(Clone, Copy, PartialEq, Eq, Debug)]
pub enum Shift {
    Up(u16),
    Down(u16),
}

// A number, a name, or a name with `+` or `-` and a number.
#[derive(Clone, Copy, PartialEq, Eq, Debug)]
pub enum Term<N> {
    Number(u16),
    Bare(N),
    Moved(N, Shift),
}

impl Shift {
    // The number that comes of another: `+` stops at 1,023 and `-` at 0.
    pub fn apply(self, number: u16) -> u16
        ensures moved { result ≡ shifted (shift_of self) number }
        ensures small { number < 1024 → result < 1024 }
    {
        match self {
            Shift::Up(by) => number.saturating_add(by).min(1023),
            Shift::Down(by) => number.saturating_sub(by),
        }
    }
}
