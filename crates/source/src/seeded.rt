// A source that makes its numbers from a seed.
ghost use Rattle.std.specs.Prelude.{◌≡◌, ◌%◌, ◌^◌, [], ◌∷◌};
ghost use Rattle.source.specs.Sources.{in_seeded, Made};
ghost use Rattle.source.specs.Xorshift.{xorshift, stream, Streams, SeedOne};

use crate::Source;
use refusal::Refusal;

// The state of the generator, and how many numbers it still gives.
#[derive(Debug, PartialEq, Eq, Drop)]
pub struct Seeded {
    state: u64,
    left: u32,
}

// The most numbers that one seed gives.
const MOST: u64 = 1_000_000;

impl Seeded {
    // The first `count` numbers of a seed, or a refusal where the seed is 0 or the count too large.
    pub fn new(seed: u64, count: u64) -> Result<Seeded, Refusal>
        ensures { Made seed count result }
    {
        if seed == 0 || count > MOST {
            return Err(Refusal::BadSeed);
        }
        Ok(Seeded::starting(seed, count as u32))
    }

    // The source before its first step.
    fn starting(seed: u64, count: u32) -> Seeded
        ensures { Streams seed count (in_seeded result) }
    {
        Seeded {
            state: seed,
            left: count,
        }
    }

    // Moves the state on, and answers the number that it then gives.
    fn advance(&mut self) -> u32
        ensures next { result ≡ xorshift self.old.state % 2 ^ 32 }
        ensures state { self.new ≡ record { state = xorshift self.old.state; left = self.old.left } }
    {
        self.state = step(self.state);
        (self.state & 0xffff_ffff) as u32
    }
}

// The state that follows.
fn step(state: u64) -> u64
    ensures { result ≡ xorshift state }
{
    let mut next = state;
    next ^= next << 13;
    next ^= next >> 7;
    next ^= next << 17;
    next
}

impl Source for Seeded {
    ghost waiting = { in_seeded };

    fn take(&mut self) -> Option<u32> {
        self.left = self.left.checked_sub(1)?;
        Some(self.advance())
    }
}

// The first number of seed 1, for other makers of these numbers to compare with.
pub fn seed_one() -> u32
    ensures first { stream 1 1 ≡ result ∷ [] }
    ensures sample { SeedOne }
{
    1_082_269_761
}
