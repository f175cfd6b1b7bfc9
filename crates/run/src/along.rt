// A run from its beginning to its end.
ghost use Rattle.std.specs.Prelude.{◌≡◌, ℕ, ◌+◌, ◌*◌, ◌≤◌, length, IfOk};
ghost use Rattle.meaning.specs.Terms.{fields_of};
ghost use Rattle.sheet.specs.Sheets.{tree_of};
ghost use Rattle.run.specs.Answering.{LongEnough};
ghost use Rattle.run.specs.Goals.{SameStack};
ghost use Rattle.run.specs.Lists.{held, SameLists};
ghost use Rattle.run.specs.Rooms.{needed_entries};
ghost use Rattle.run.specs.Ways.{way, way_of, SameTrail};
ghost use Rattle.run.specs.Whole.{Along, RunsWithin};

use crate::answer::Ran;
use crate::finish::{Numbers, finish, keep_ranges};
use crate::guide::Guide;
use crate::lists::Lists;
use crate::stack::{Depth, Stack};
use crate::stop::Stop;
use crate::trail::Trail;
use crate::work::work;
use sheet::table::Sheet;
use store::Store;

// One run, as its guide tells it: the numbers of a mark, or why there is none.
fn along<S: Store, G: Guide>(
    sheet: &Sheet,
    store: &mut S,
    stack: &mut Stack<'_>,
    trail: &mut Trail<'_, G>,
) -> Result<Numbers, Stop>
    requires fields { S.width store.old ≡ length sheet.now.ranges.items }
    requires picks { needed_entries stack.old.depth.fuel ≤ length trail.old.picks.now }
    requires widths { needed_entries stack.old.depth.fuel ≤ length trail.old.widths.now }
    requires begun { trail.old.at ≡ 0 }
    ensures same { RunsWithin S.width S.starting S.current store.old store.new }
    ensures lists { SameTrail G.fixed trail.old trail.new }
    ensures held { SameStack stack.old stack.new }
    ensures long { IfOk result (λ m. length m.items ≡ length sheet.now.ranges.items) }
    ensures left { Along (tree_of sheet.now) stack.old.depth.fuel (S.starting store.old)
        (way_of G.ahead trail.old) result (way_of G.ahead trail.new) }
{
    keep_ranges(sheet, store)?;
    work(sheet, store, stack, trail)?;
    finish(store, trail)
}

// One run over the lists of a caller, of which it leaves the mark list as found.
pub(crate) fn run<S: Store, G: Guide>(
    sheet: &Sheet,
    store: &mut S,
    fuel: u8,
    guide: &mut G,
    lists: &mut Lists<'_>,
) -> Ran<Result<Numbers, Stop>>
    requires fields { S.width store.old ≡ length sheet.now.ranges.items }
    requires long { LongEnough fuel (S.width store.old) 0 (held lists.old) }
    ensures same { RunsWithin S.width S.starting S.current store.old store.new }
    ensures own { SameLists lists.old lists.new }
    ensures mark { lists.new.mark.now ≡ lists.old.mark.now }
    ensures fixed { G.fixed guide.new ≡ G.fixed guide.old }
    ensures long { IfOk result.ended (λ m. length m.items ≡ length sheet.now.ranges.items) }
    ensures left { Along (tree_of sheet.now) fuel (S.starting store.old)
        (way (G.ahead guide.old) lists.old.picks.now lists.old.widths.now 0) result.ended
        (way (G.ahead guide.new) lists.new.picks.now lists.new.widths.now result.length) }
{
    let mut trail = Trail {
        picks: lists.picks,
        widths: lists.widths,
        at: 0,
        guide,
    };
    let mut stack = Stack {
        goals: lists.goals,
        frames: lists.frames,
        depth: Depth {
            goals: 0,
            frames: 0,
            fuel,
        },
    };
    let ended = along(sheet, store, &mut stack, &mut trail);
    Ran {
        ended,
        length: trail.at,
    }
}
