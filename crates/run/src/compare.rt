// Comparisons along a run.
ghost use Rattle.std.specs.Prelude.{◌≡◌, ℕ, ◌<◌, true};
ghost use Rattle.marks.specs.Counted.{some};
ghost use Rattle.sheet.specs.Table.{term_of};
ghost use Rattle.run.specs.Frames.{Okay, argument_of, arguments_of, FrameOkay, TermOkay};
ghost use Rattle.meaning.specs.Matching.{the_number};
ghost use Rattle.run.specs.Ways.{Way, way_of, SameTrail, Fits};
ghost use Rattle.run.specs.Settling.{Narrows};
ghost use Rattle.run.specs.Comparing.{LeavingOne, Narrowed, Related, Compared, Comparing};

use crate::argument::{known, resolve};
use crate::goal::{Argument, Frame};
use crate::guide::Guide;
use crate::settle::settle;
use crate::stop::{Stop, alive};
use crate::trail::Trail;
use formula::Comparison;
use sheet::node::Term;
use store::Store;

// A comparison: its two sides, which are terms or what they come to, and the sign between them.
#[derive(Clone, Copy, Debug, PartialEq, Eq)]
pub(crate) struct Relation<T> {
    pub(crate) left: T,
    pub(crate) sign: Comparison,
    pub(crate) right: T,
}

// Keeps the marks whose field stands so to the number; a dead end where there is none.
fn narrow<S: Store>(store: &mut S, field: usize, sign: Comparison, number: u16) -> Result<(), Stop>
    requires field { field < S.width store.old }
    requires number { number < 1024 }
    ensures same { Narrows S.width S.starting S.current store.old store.new }
    ensures left { Narrowed (S.width store.old) (S.current store.old) field sign
        number result (S.current store.new) }
{
    let _ = store.keep(field, sign, number);
    alive(store)
}

// A comparison whose left side is a number.
fn relate_number<S: Store>(
    store: &mut S,
    left: u16,
    sign: Comparison,
    right: Argument,
) -> Result<(), Stop>
    requires small { left < 1024 }
    requires right { Okay (S.width store.old) right }
    requires some { some (S.width store.old) (S.current store.old) ≡ true }
    ensures same { Narrows S.width S.starting S.current store.old store.new }
    ensures left { (z : Way) → Related (S.width store.old) (S.current store.old) (the_number left) sign
        (argument_of right) z result (S.current store.new) z }
{
    match right {
        Argument::Field(field) => narrow(store, usize::from(field), sign.mirrored(), left),
        Argument::Number(right) => {
            if sign.holds(left, right) {
                Ok(())
            } else {
                Err(Stop::DeadEnd)
            }
        }
    }
}

// A comparison of what its terms come to. Of two unknown fields the left is settled; the other is kept by the sign. The
// store is asked for no number that the comparison does without: a field on the left is kept by a right side that is
// known, whether it is known itself or not, and settling makes no choice where it is.
fn relate<S: Store, G: Guide>(
    store: &mut S,
    sides: Relation<Argument>,
    trail: &mut Trail<'_, G>,
) -> Result<(), Stop>
    requires left { Okay (S.width store.old) sides.left }
    requires right { Okay (S.width store.old) sides.right }
    requires some { some (S.width store.old) (S.current store.old) ≡ true }
    requires room { Fits (way_of G.ahead trail.old)
        (LeavingOne (S.current store.old) (argument_of sides.left) (argument_of sides.right)) }
    ensures same { Narrows S.width S.starting S.current store.old store.new }
    ensures lists { SameTrail G.fixed trail.old trail.new }
    ensures left { Related (S.width store.old) (S.current store.old) (argument_of sides.left) sides.sign
        (argument_of sides.right) (way_of G.ahead trail.old) result (S.current store.new)
        (way_of G.ahead trail.new) }
{
    let sign = sides.sign;
    let field = match sides.left {
        Argument::Number(left) => return relate_number(store, left, sign, sides.right),
        Argument::Field(field) => usize::from(field),
    };
    match known(store, sides.right) {
        Ok(right) => narrow(store, field, sign, right),
        Err(right) => {
            let left = settle(store, sides.left, trail)?;
            narrow(store, right.field, sign.mirrored(), left)
        }
    }
}

// A comparison with target true: its terms are worked out, left before right.
pub(crate) fn compare<S: Store, G: Guide>(
    store: &mut S,
    frame: Frame,
    terms: Relation<Term>,
    trail: &mut Trail<'_, G>,
) -> Result<(), Stop>
    requires frame { FrameOkay (S.width store.old) frame }
    requires left { TermOkay (S.width store.old) frame.count terms.left }
    requires right { TermOkay (S.width store.old) frame.count terms.right }
    requires some { some (S.width store.old) (S.current store.old) ≡ true }
    requires room { Fits (way_of G.ahead trail.old)
        (Comparing (arguments_of frame) (term_of terms.left) terms.sign (term_of terms.right)
        (S.current store.old)) }
    ensures same { Narrows S.width S.starting S.current store.old store.new }
    ensures lists { SameTrail G.fixed trail.old trail.new }
    ensures left { Compared (S.width store.old) (arguments_of frame) (term_of terms.left) terms.sign
        (term_of terms.right) (S.current store.old)
        (way_of G.ahead trail.old) result (S.current store.new) (way_of G.ahead trail.new) }
{
    let left = resolve(store, frame, terms.left, trail)?;
    let right = resolve(store, frame, terms.right, trail)?;
    let sides = Relation {
        left,
        sign: terms.sign,
        right,
    };
    relate(store, sides, trail)
}
