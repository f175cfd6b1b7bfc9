// Settling a field: a choice among its numbers, unless it takes one only.
ghost use Rattle.std.specs.Prelude.{◌≡◌, ℕ, ◌<◌, true, length};
ghost use Rattle.marks.specs.Counted.{some, values};
ghost use Rattle.run.specs.Frames.{Okay, argument_of};
ghost use Rattle.run.specs.Ways.{way_of, SameTrail, Fits};
ghost use Rattle.run.specs.Settling.{Narrows, Settled, Settling, KeepsValue};

use crate::argument::{Unsettled, known};
use crate::choice::Choice;
use crate::goal::Argument;
use crate::guide::Guide;
use crate::stop::Stop;
use crate::trail::Trail;
use formula::Comparison;
use std::num::NonZeroU16;
use store::Store;

// Keeps the number at a place among the numbers of a field, and answers it.
fn keep_value<S: Store>(store: &mut S, field: usize, place: usize) -> u16
    requires field { field < S.width store.old }
    requires inside { place < length (values (S.width store.old) (S.current store.old) field) }
    ensures same { Narrows S.width S.starting S.current store.old store.new }
    ensures left { KeepsValue (S.width store.old) (S.current store.old) field place result
        (S.current store.new) }
{
    let value = store.value(field, place).unwrap();
    let _ = store.keep(field, Comparison::Equal, value);
    value
}

// Settles what a name stands for.
pub(crate) fn settle<S: Store, G: Guide>(
    store: &mut S,
    argument: Argument,
    trail: &mut Trail<'_, G>,
) -> Result<u16, Stop>
    requires okay { Okay (S.width store.old) argument }
    requires some { some (S.width store.old) (S.current store.old) ≡ true }
    requires room { Fits (way_of G.ahead trail.old)
        (Settling (S.current store.old) (argument_of argument)) }
    ensures same { Narrows S.width S.starting S.current store.old store.new }
    ensures lists { SameTrail G.fixed trail.old trail.new }
    ensures left { Settled (S.width store.old) (S.current store.old) argument
        (way_of G.ahead trail.old) result (S.current store.new) (way_of G.ahead trail.new) }
{
    match known(store, argument) {
        Ok(number) => Ok(number),
        Err(Unsettled { field, count }) => {
            let count = NonZeroU16::new(count as u16).unwrap();
            let place = trail.choose(Choice::Among(count))?;
            Ok(keep_value(store, field, usize::from(place)))
        }
    }
}
