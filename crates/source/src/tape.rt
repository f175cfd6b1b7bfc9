// A tape of numbers held for reading, as a source.
ghost use Rattle.std.specs.Prelude.{◌≡◌};
ghost use Rattle.source.specs.Sources.{on_tape};

use crate::Source;

// The rest of a tape: the numbers that were not taken.
#[derive(Debug, PartialEq, Eq, Drop)]
pub struct Tape<'a> {
    numbers: &'a [u32],
}

impl<'a> Tape<'a> {
    // The tape of these numbers, none taken.
    pub fn new(numbers: &'a [u32]) -> Tape<'a>
        ensures { on_tape result ≡ numbers.now }
    {
        Tape { numbers }
    }
}

impl Source for Tape<'_> {
    ghost waiting = { on_tape };

    fn take(&mut self) -> Option<u32> {
        let (first, rest) = self.numbers.split_first()?;
        self.numbers = rest;
        Some(*first)
    }
}
