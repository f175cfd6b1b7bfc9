// What waits while a run goes on: goals, and what the parameters of a called rule stand for.
ghost use Rattle.std.specs.Prelude.{◌≡◌, ℕ, ◌+◌, ◌<◌, slice_set};

// What a name stands for in a run: a field, or a number. That the field is one of the store's is a fact of both, which
// contracts ask (`Okay`).
#[derive(Clone, Copy, Debug, PartialEq, Eq)]
pub enum Argument {
    Field(u8),
    Number(u16),
}

// What the parameters of one call stand for, as many as `count`. An array with a count, and no vector: frames wait in
// the caller's list, which takes copies; a frame is copied, and a vector is not. That `count` is at most 4 is asked by
// contracts, and is no ghost field: by a rule of the project a caller's list may hold any frame.
#[derive(Clone, Copy, Debug, PartialEq, Eq)]
pub struct Frame {
    pub arguments: [Argument; 4],
    pub count: u8,
}

impl Frame {
    // The frame of a formula without parameters.
    pub const NONE: Frame = Frame {
        arguments: [Argument::Number(0); 4],
        count: 0,
    };

    // Adds what one more parameter stands for.
    pub(crate) fn push(&mut self, argument: Argument)
        requires { self.old.count < 4 }
        ensures { self.new ≡ record {
          arguments = slice_set self.old.arguments self.old.count argument;
          count = self.old.count + 1;
        } }
    {
        self.arguments[usize::from(self.count)] = argument;
        self.count += 1;
    }
}

// A formula that waits to be matched: its entry in the sheet's table, its target, and its frame. Plain numbers, since
// goals are plain records in the caller's slice, by a rule of the project.
#[derive(Clone, Copy, Debug, PartialEq, Eq)]
pub struct Goal {
    pub formula: u8,
    pub target: bool,
    pub frame: u16,
}

impl Goal {
    // The goal that fills a fresh list.
    pub const NONE: Goal = Goal {
        formula: 0,
        target: false,
        frame: 0,
    };

    // A part of its formula with that target, in the same frame.
    pub(crate) fn part(self, formula: u8, target: bool) -> Goal
        ensures { result ≡ record { formula = formula; target = target; frame = self.frame } }
    {
        Goal {
            formula,
            target,
            frame: self.frame,
        }
    }
}
