// Sources of numbers for draws.
#![tactic(auto)]

ghost use Rattle.std.specs.Prelude.{ℕ, List};
ghost use Rattle.source.specs.Waiting.{Taken};

pub mod seeded;
pub mod tape;

// A source means the list of numbers below 2^32 that wait in it.
pub trait Source {
    ghost waiting: { Self → List ℕ };

    // Removes and answers the first number, and answers none exactly when nothing waits.
    fn take(&mut self) -> Option<u32>
        ensures { Taken (waiting self.old) (waiting self.new) result };
}
