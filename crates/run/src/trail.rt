// The entries that a run writes as it goes, and what tells its picks.
ghost use Rattle.std.specs.Prelude.{◌≡◌, ℕ};
ghost use Rattle.run.specs.Ways.{choice_of, Room, way_of, SameTrail, Chosen};

use crate::choice::Choice;
use crate::guide::{Entry, Guide};
use crate::stop::Stop;

// The two trace lists, how many entries of them are written, and what tells the picks. The lists are the caller's,
// with places counted by hand, since a run allocates nothing. No `PartialEq`: entries past that place mean nothing.
// The store stays outside, and `Narrows` and `SameTrail` are two clauses: a clause of both would name eight things and
// say no more, and a struct of both could not keep that a mark is left, since after a dead end there may be none.
#[derive(Debug, Drop)]
pub(crate) struct Trail<'a, G> {
    pub(crate) picks: &'a mut [u16],
    pub(crate) widths: &'a mut [u16],
    pub(crate) at: usize,
    pub(crate) guide: &'a mut G,
}

impl<G: Guide> Trail<'_, G> {
    // Makes a choice: writes its pick and its width at the end, or halts and writes nothing where no pick is told.
    pub(crate) fn choose(&mut self, choice: Choice) -> Result<u16, Stop>
        requires { Room 1 (way_of G.ahead self.old).trail }
        ensures lists { SameTrail G.fixed self.old self.new }
        ensures left { Chosen (choice_of choice) (way_of G.ahead self.old) result (way_of G.ahead self.new) }
    {
        let at = self.at;
        let entry = Entry {
            pick: self.picks[at],
            width: self.widths[at],
        };
        let pick = self.guide.tell(choice, at, entry).ok_or(Stop::Halted)?;
        self.picks[at] = pick;
        self.widths[at] = choice.width();
        self.at = at + 1;
        Ok(pick)
    }
}
