// Stores of marks: the trait that every store keeps, and the open store.
// A mark is a list of numbers from 0 to 1,023, one for each field.
#![tactic(auto)]

ghost use Rattle.std.specs.Prelude.{◌≡◌, ℕ};
ghost use Rattle.marks.specs.Sets.{Marks};
ghost use Rattle.store.specs.Rules.{Sound, Stays, Keeps, TellsEmpty, Counts, Answers};

use formula::Comparison;
use refusal::Refusal;

pub mod lend;
pub mod open;
pub mod open_rows;
pub mod row;

// The greatest number of a mark.
pub const GREATEST: u16 = 1023;

// A store means a starting set and a current set of marks of so many fields.
pub trait Store {
    // how many fields a mark has
    ghost width: { Self → ℕ };

    ghost starting: { Self → Marks };

    ghost current: { Self → Marks };

    // both are sets of marks of that many fields
    ghost sound: { Sound width starting current };

    // How many fields a mark has, always the same.
    fn fields(&self) -> usize
        ensures { result ≡ width self.now };

    // Makes the current set equal to the starting set.
    fn restart(&mut self)
        ensures same { Stays width starting self.old self.new }
        ensures left { current self.new ≡ starting self.old };

    // Removes exactly the marks whose field fails the comparison with the number. Refused, with nothing removed,
    // for a field that the store has not or a number above 1,023.
    // Three parameters and no struct of them: a caller has each from another place, and would make it for the one call.
    fn keep(&mut self, field: usize, sign: Comparison, number: u16) -> Result<(), Refusal>
        ensures same { Stays width starting self.old self.new }
        ensures left { Keeps (width self.old) (current self.old)
            (current self.new) field sign number result };

    // Whether the current set has no mark.
    fn is_empty(&self) -> bool
        ensures { TellsEmpty (width self.now) (current self.now) result };

    // How many different numbers the field takes in the current set; 0 for a field that the store has not.
    fn count(&self, field: usize) -> usize
        ensures { Counts (width self.now) (current self.now) field result };

    // The k-th smallest of those numbers, from 0; none exactly when k is not below their count.
    fn value(&self, field: usize, k: usize) -> Option<u16>
        ensures { Answers (width self.now) (current self.now) field k result };
}
