// The two ends of a run: the ranges kept at its beginning, and the fields settled at its end.
ghost use Rattle.std.specs.Prelude.{◌≡◌, ℕ, ◌≤◌, true, length};
ghost use Rattle.marks.specs.Counted.{some};
ghost use Rattle.meaning.specs.Terms.{ranges_of};
ghost use Rattle.meaning.specs.Runs.{inside};
ghost use Rattle.sheet.specs.Sheets.{tree_of};
ghost use Rattle.store.specs.Rules.{Stays};
ghost use Rattle.run.specs.Ways.{way_of, SameTrail, Fits};
ghost use Rattle.run.specs.Settling.{Narrows};
ghost use Rattle.run.specs.Comparing.{Lives};
ghost use Rattle.run.specs.Works.{Ending, Finished};

use crate::goal::Argument;
use crate::guide::Guide;
use crate::settle::settle;
use crate::stop::{Stop, alive};
use crate::trail::Trail;
use arrayvec::ArrayVec;
use formula::Comparison;
use sheet::table::Sheet;
use store::Store;

// The numbers of a mark, one for each field; a sheet has at most eight.
pub(crate) type Numbers = ArrayVec<u16, 8>;

// Begins a run: keeps each field's range, in field order; a dead end where no mark is left.
pub(crate) fn keep_ranges<S: Store>(sheet: &Sheet, store: &mut S) -> Result<(), Stop>
    requires fields { S.width store.old ≡ length sheet.now.ranges.items }
    ensures same { Stays S.width S.starting store.old store.new }
    ensures left { S.current store.new ≡ inside (S.starting store.old)
        (ranges_of (tree_of sheet.now)) }
    ensures lives { Lives (S.width store.new) (S.current store.new) result }
{
    store.restart();
    for (field, range) in sheet.ranges.iter().enumerate() {
        let _ = store.keep(field, Comparison::AtLeast, range.low);
        let _ = store.keep(field, Comparison::AtMost, range.high);
    }
    alive(store)
}

// Ends a run: settles the unknown fields in field order, and answers the numbers of all.
pub(crate) fn finish<S: Store, G: Guide>(
    store: &mut S,
    trail: &mut Trail<'_, G>,
) -> Result<Numbers, Stop>
    requires few { S.width store.old ≤ 8 }
    requires some { some (S.width store.old) (S.current store.old) ≡ true }
    requires room { Fits (way_of G.ahead trail.old) (Ending 0 (S.width store.old) (S.current store.old)) }
    ensures same { Narrows S.width S.starting S.current store.old store.new }
    ensures lists { SameTrail G.fixed trail.old trail.new }
    ensures left { Finished (S.width store.old) (S.current store.old)
        (way_of G.ahead trail.old) result (S.current store.new) (way_of G.ahead trail.new) }
{
    let mut made = Numbers::new();
    for field in 0..store.fields() {
        made.push(settle(store, Argument::Field(field as u8), trail)?);
    }
    Ok(made)
}
