// The lists that a caller lends for a run.
ghost use Rattle.run.specs.Lists.{held};
ghost use Rattle.run.specs.Whole.{Enough};

use crate::goal::{Frame, Goal};

// Two trace lists, a list of goals, a list of frames, and a mark list. They stay the caller's own. Picks and widths are
// two slices, and not one of entries: a rule of the project, whose callers hold two trace lists. Sheet, store and
// fuel stay outside: a check reads the sheet alone, and the lists of one call serve the next with another store or
// fuel. No `PartialEq`: only the first entries of a list mean something, and how many is not told here.
#[derive(Debug, Drop)]
pub struct Lists<'a> {
    pub picks: &'a mut [u16],
    pub widths: &'a mut [u16],
    pub goals: &'a mut [Goal],
    pub frames: &'a mut [Frame],
    pub mark: &'a mut [u16],
}

impl Lists<'_> {
    // Whether they are long enough for so much fuel, so many fields and so many given entries.
    pub(crate) fn are_long_enough(&self, fuel: u8, fields: usize, given: usize) -> bool
        ensures { Enough result fuel fields given (held self.now) }
    {
        let calls = usize::from(fuel) + 1;
        let entries = 16 * calls + 8;
        entries <= self.picks.len()
            && entries <= self.widths.len()
            && entries <= self.goals.len()
            && calls <= self.frames.len()
            && fields <= self.mark.len()
            && given <= self.picks.len()
            && given <= self.widths.len()
    }
}
