// What names and terms stand for in a run.
ghost use Rattle.std.specs.Prelude.{◌≡◌, ℕ, ◌<◌, ◌≤◌, true};
ghost use Rattle.marks.specs.Counted.{some};
ghost use Rattle.sheet.specs.Table.{term_of};
ghost use Rattle.run.specs.Frames.{Okay, argument_of, arguments_of, FrameOkay, KnownIn, TermOkay, Stands};
ghost use Rattle.run.specs.Ways.{way_of, SameTrail, Fits};
ghost use Rattle.run.specs.Settling.{Narrows};
ghost use Rattle.run.specs.Comparing.{Knows, Resolved, Resolving};

use crate::goal::{Argument, Frame};
use crate::guide::Guide;
use crate::settle::settle;
use crate::stop::Stop;
use crate::trail::Trail;
use sheet::node::{Name, Term};
use store::Store;

impl Frame {
    // What a name stands for.
    pub(crate) fn argument(self, name: Name) -> Argument
        requires few { self.count ≤ 4 }
        requires known { KnownIn self.count name }
        ensures { Stands self name result }
    {
        match name {
            Name::Field(field) => Argument::Field(field),
            Name::Param(place) => self.arguments[usize::from(place)],
        }
    }
}

// A field that does not take one number only, and how many it takes.
#[derive(Clone, Copy, Debug, PartialEq, Eq)]
pub(crate) struct Unsettled {
    pub(crate) field: usize,
    pub(crate) count: usize,
}

// The number of an argument that is known.
pub(crate) fn known<S: Store>(store: &S, argument: Argument) -> Result<u16, Unsettled>
    requires okay { Okay (S.width store.now) argument }
    ensures { Knows (S.width store.now) (S.current store.now) (argument_of argument) result }
{
    let field = match argument {
        Argument::Number(number) => return Ok(number),
        Argument::Field(field) => usize::from(field),
    };
    let count = store.count(field);
    if count == 1 {
        return Ok(store.value(field, 0).unwrap());
    }
    Err(Unsettled { field, count })
}

// What a term comes to: a name under `+` or `-` is settled, a bare name stays what it stands for.
pub(crate) fn resolve<S: Store, G: Guide>(
    store: &mut S,
    frame: Frame,
    term: Term,
    trail: &mut Trail<'_, G>,
) -> Result<Argument, Stop>
    requires frame { FrameOkay (S.width store.old) frame }
    requires okay { TermOkay (S.width store.old) frame.count term }
    requires some { some (S.width store.old) (S.current store.old) ≡ true }
    requires room { Fits (way_of G.ahead trail.old)
        (Resolving (arguments_of frame) (S.current store.old) (term_of term)) }
    ensures same { Narrows S.width S.starting S.current store.old store.new }
    ensures lists { SameTrail G.fixed trail.old trail.new }
    ensures left { Resolved (S.width store.old) (arguments_of frame) (S.current store.old) (term_of term)
        (way_of G.ahead trail.old) result (S.current store.new) (way_of G.ahead trail.new) }
{
    match term {
        Term::Number(number) => Ok(Argument::Number(number)),
        Term::Bare(name) => Ok(frame.argument(name)),
        Term::Moved(name, shift) => {
            let number = settle(store, frame.argument(name), trail)?;
            Ok(Argument::Number(shift.apply(number)))
        }
    }
}
