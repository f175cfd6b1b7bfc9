// The stack of a run: the goals that wait, and the frames of the calls that they stand in.
ghost use Rattle.std.specs.Prelude.{◌≡◌, ℕ, ◌+◌, ◌<◌, ◌≤◌, true, [], ◌∷◌, length, slice_set};
ghost use Rattle.meaning.specs.Terms.{mark_line};
ghost use Rattle.meaning.specs.Pending.{goal as waiting};
ghost use Rattle.sheet.specs.Sheets.{tree_of};
ghost use Rattle.run.specs.Rooms.{needed_entries};

use crate::goal::{Frame, Goal};
use crate::stop::Stop;
use sheet::table::Sheet;

// How far a run has come: goals that wait, frames in use, and fuel left.
#[derive(Clone, Copy, Debug, PartialEq, Eq)]
pub(crate) struct Depth {
    pub(crate) goals: usize,
    pub(crate) frames: u16,
    pub(crate) fuel: u8,
}

// The lists of goals and frames, long enough for the fuel, and how far the run has come in them. They are the caller's,
// with places counted by hand, since a run allocates nothing. No `PartialEq`: what stands past those places means
// nothing.
#[derive(Debug, Drop)]
pub(crate) struct Stack<'a> {
    pub(crate) goals: &'a mut [Goal],
    pub(crate) frames: &'a mut [Frame],
    pub(crate) depth: Depth,
    ghost goals_hold: { needed_entries depth.fuel ≤ length goals.now },
    ghost frames_hold: { depth.fuel + 1 ≤ length frames.now },
}

impl Stack<'_> {
    ghost use Rattle.run.specs.Goals.{spot_of, stack as goals_of, SameStack, Fit, Entered};

    // Begins a run: the formula of the mark line waits, with target true and no parameters.
    pub(crate) fn begin(&mut self, sheet: &Sheet)
        ensures lists { SameStack self.old self.new }
        ensures fit { Fit sheet.now (spot_of self.new) }
        ensures waits { goals_of sheet.now (spot_of self.new) ≡ waiting [] (mark_line (tree_of sheet.now)) true ∷ [] }
        ensures fuel { self.new.depth.fuel ≡ self.old.depth.fuel }
    {
        let fuel = self.depth.fuel;
        self.goals[0] = Goal {
            formula: sheet.mark.body,
            target: true,
            frame: 0,
        };
        self.frames[0] = Frame::NONE;
        self.depth = Depth {
            goals: 1,
            frames: 1,
            fuel,
        };
    }

    // Puts a goal on the stack.
    pub(crate) fn push(&mut self, goal: Goal)
        requires { self.old.depth.goals < length self.old.goals.now }
        ensures lists { SameStack self.old self.new }
        ensures goals { self.new.goals.now ≡ slice_set self.old.goals.now self.old.depth.goals goal }
        ensures frames { self.new.frames.now ≡ self.old.frames.now }
        ensures depth { self.new.depth ≡ record {
          goals = self.old.depth.goals + 1;
          frames = self.old.depth.frames;
          fuel = self.old.depth.fuel;
        } }
    {
        self.goals[self.depth.goals] = goal;
        self.depth.goals += 1;
    }

    // Enters a called rule with its frame: spends one fuel, or is spent.
    pub(crate) fn enter(&mut self, frame: Frame, formula: u8, target: bool) -> Result<(), Stop>
        requires goals { self.old.depth.goals < length self.old.goals.now }
        requires frames { self.old.depth.frames + self.old.depth.fuel ≤ length self.old.frames.now }
        requires few { self.old.depth.frames + self.old.depth.fuel ≤ 256 }
        ensures lists { SameStack self.old self.new }
        ensures left { Entered frame formula target (spot_of self.old) result (spot_of self.new) }
    {
        let left = self.depth.fuel.checked_sub(1).ok_or(Stop::Spent)?;
        let place = self.depth.frames;
        self.frames[usize::from(place)] = frame;
        self.depth.frames = place + 1;
        self.depth.fuel = left;
        self.push(Goal {
            formula,
            target,
            frame: place,
        });
        Ok(())
    }
}
