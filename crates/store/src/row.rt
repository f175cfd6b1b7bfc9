// The numbers that one field may take.
ghost use Rattle.std.specs.Prelude.{◌≡◌, ℕ, false, not, ◌&&◌, ◌||◌, length, ◌==◌, nat_lt};
ghost use Rattle.formula.specs.Comparing.{holds};
ghost use Rattle.marks.specs.Counted.{any_below, below};
ghost use Rattle.store.specs.Rules.{Picks};
ghost use Rattle.store.specs.Rows.{has};

use formula::Comparison;

// A set of numbers up to 1,023: whether each is in it.
#[derive(Clone, Copy, PartialEq, Eq, Debug)]
pub struct Row {
    present: [bool; 1024],
}

// `full` and `none` stay two functions: their names say more than a `filled(true)` would.
impl Row {
    // Every number up to 1,023.
    pub(crate) fn full() -> Row
        ensures { (v : ℕ) → has result v ≡ nat_lt v 1024 }
    {
        Row {
            present: [true; 1024],
        }
    }

    // No number.
    pub fn none() -> Row
        ensures { (v : ℕ) → has result v ≡ false }
    {
        Row {
            present: [false; 1024],
        }
    }

    // Whether the number is in the row.
    pub(crate) fn holds(&self, number: u16) -> bool
        ensures { result ≡ has self.now number }
    {
        number < 1024 && self.present[usize::from(number)]
    }

    // Adds a number; one above 1,023 is left out.
    pub fn add(&mut self, number: u16)
        ensures { (v : ℕ) → has self.new v
            ≡ (has self.old v || (nat_lt v 1024 && number == v)) }
    {
        if number < 1024 {
            self.present[usize::from(number)] = true;
        }
    }

    // Removes the numbers that fail the comparison.
    pub(crate) fn narrow(&mut self, sign: Comparison, number: u16)
        ensures { (v : ℕ) → has self.new v
            ≡ (has self.old v && holds sign v number) }
    {
        for (v, present) in self.present.iter_mut().enumerate() {
            if !sign.holds(v as u16, number) {
                *present = false;
            }
        }
    }

    // Whether no number is in the row.
    pub(crate) fn is_empty(&self) -> bool
        ensures { result ≡ not (any_below (has self.now) 1024) }
    {
        !self.present.contains(&true)
    }

    // How many numbers are in the row.
    pub fn count(&self) -> usize
        ensures { result ≡ length (below (has self.now) 1024) }
    {
        // A loop over the elements, for the bar of speed in bench/FIGURES.md: the instructions of a run of `list` on
        // free numbering, most of which count. The `count` of a filtered chain takes eight times those of this loop.
        let mut found = 0;
        for present in &self.present {
            if *present {
                found += 1;
            }
        }
        found
    }

    // The k-th smallest number of the row, from 0.
    pub fn value(&self, k: usize) -> Option<u16>
        ensures { Picks (below (has self.now) 1024) k result }
    {
        (0..1024u16)
            .filter(|v| self.present[usize::from(*v)])
            .nth(k)
    }
}
