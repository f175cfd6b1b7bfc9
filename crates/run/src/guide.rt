// What tells a run its picks: entries recorded earlier, or the numbers of a source.
ghost use Rattle.std.specs.Prelude.{◌≡◌, ℕ, suc, List, slice_set};
ghost use Rattle.run.specs.Guides.{Guide as Ahead};
ghost use Rattle.run.specs.Ways.{choice_of, TellsAt};
ghost use Rattle.run.specs.Ahead.{recorded_ahead, drawn_ahead};
ghost use Rattle.run.specs.Past.{recorded_past, drawn_past};

use crate::choice::Choice;
use source::Source;

// One entry of both trace lists: a pick, and the width of its choice.
#[derive(Clone, Copy, Debug, PartialEq, Eq)]
pub(crate) struct Entry {
    pub(crate) pick: u16,
    pub(crate) width: u16,
}

// A guide tells the pick of each choice, one after the other.
pub(crate) trait Guide {
    // what it tells from a place of the trace lists on
    ghost ahead: { Self → List ℕ → List ℕ → ℕ → Ahead };

    // what no telling changes: how many entries were given, or which source it reads
    ghost fixed: { Self → ℕ };

    // The pick of a choice at that place of the trace lists, with the entry there; none where no pick is told.
    fn tell(&mut self, choice: Choice, at: usize, entry: Entry) -> Option<u16>
        ensures same { fixed self.new ≡ fixed self.old }
        ensures told { TellsAt (choice_of choice) at entry.pick entry.width (ahead self.old) result
            (ahead self.new) };

    // an entry written at a place changes nothing that is told past it
    ghost past: { (g : Self) → (ps ws : List ℕ) → (k p w : ℕ)
        → ahead g (slice_set ps k p) (slice_set ws k w) (suc k) ≡ ahead g ps ws (suc k) };
}

// The first entries of the trace lists, so many, with pick 0 past them.
#[derive(Clone, Copy, Debug, PartialEq, Eq)]
pub(crate) struct Recorded {
    pub(crate) given: usize,
}

impl Guide for Recorded {
    ghost ahead = { λ g. recorded_ahead g.given };

    ghost fixed = { λ g. g.given };

    ghost past = { λ g. recorded_past g.given };

    fn tell(&mut self, choice: Choice, at: usize, entry: Entry) -> Option<u16> {
        if at >= self.given {
            return Some(0);
        }
        if entry.width != choice.width() {
            return None;
        }
        if entry.pick >= choice.width() {
            return None;
        }
        Some(entry.pick)
    }
}

// The numbers of a source, one for each choice.
#[derive(Debug, Drop)]
pub(crate) struct Drawn<'a, R> {
    pub(crate) source: &'a mut R,
}

impl<R: Source> Guide for Drawn<'_, R> {
    ghost ahead = { λ g. drawn_ahead (R.waiting g.source.now) };

    ghost fixed = { λ g. g.source.ghost_name };

    ghost past = { λ g. drawn_past (R.waiting g.source.now) };

    fn tell(&mut self, choice: Choice, _: usize, _: Entry) -> Option<u16> {
        let number = self.source.take()?;
        Some(choice.drawn(number))
    }
}
