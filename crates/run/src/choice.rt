// The choices that a run meets.
ghost use Rattle.std.specs.Prelude.{ℕ, ◌+◌, ◌<◌};

use std::num::NonZeroU16;

// The weights of two branches; at least one is above 0, as a draw needs.
#[derive(Clone, Copy, Debug, PartialEq, Eq)]
pub(crate) struct Weights {
    pub(crate) left: u16,
    pub(crate) right: u16,
    ghost some: { 0 < left + right },
}

// A choice among so many numbers, or between two branches by their weights.
#[derive(Clone, Copy, Debug, PartialEq, Eq)]
pub(crate) enum Choice {
    Among(NonZeroU16),
    Branch(Weights),
}

impl Choice {
    ghost use Rattle.std.specs.Prelude.{◌≡◌};
    ghost use Rattle.meaning.specs.Draws.{drawn as drawn_by};
    ghost use Rattle.meaning.specs.Traces.{width as width_of};
    ghost use Rattle.run.specs.Ways.{choice_of};

    // How many picks there are.
    pub(crate) fn width(self) -> u16
        ensures { result ≡ width_of (choice_of self) }
    {
        match self {
            Choice::Among(count) => count.get(),
            Choice::Branch(_) => 2,
        }
    }

    // The pick that a number draws.
    pub(crate) fn drawn(self, number: u32) -> u16
        ensures { (result ≡ drawn_by number (choice_of self)) × (result < width_of (choice_of self)) }
    {
        match self {
            Choice::Among(count) => (number % u32::from(count.get())) as u16,
            Choice::Branch(weights) => {
                let left = u32::from(weights.left);
                if number % (left + u32::from(weights.right)) < left {
                    return 0;
                }
                1
            }
        }
    }
}
