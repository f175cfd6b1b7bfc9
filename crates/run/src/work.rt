// The loop over the goals that wait.
ghost use Rattle.std.specs.Prelude.{◌≡◌, ℕ, true, length};
ghost use Rattle.marks.specs.Counted.{some};
ghost use Rattle.meaning.specs.Terms.{rules_of, mark_line};
ghost use Rattle.sheet.specs.Sheets.{tree_of};
ghost use Rattle.run.specs.Goals.{SameStack};
ghost use Rattle.run.specs.Ways.{way_of, SameTrail, Fits};
ghost use Rattle.run.specs.Settling.{Narrows};
ghost use Rattle.run.specs.Works.{Matching, Worked};

use crate::guide::Guide;
use crate::stack::Stack;
use crate::stop::Stop;
use crate::trail::Trail;
use crate::turn::step;
use sheet::table::Sheet;
use store::Store;

// Matches the formula of the mark line with target true.
pub(crate) fn work<S: Store, G: Guide>(
    sheet: &Sheet,
    store: &mut S,
    stack: &mut Stack<'_>,
    trail: &mut Trail<'_, G>,
) -> Result<(), Stop>
    requires fields { S.width store.old ≡ length sheet.now.ranges.items }
    requires some { some (S.width store.old) (S.current store.old) ≡ true }
    requires room { Fits (way_of G.ahead trail.old)
        (Matching (rules_of (tree_of sheet.now)) (mark_line (tree_of sheet.now)) stack.old.depth.fuel
        (S.current store.old)) }
    ensures same { Narrows S.width S.starting S.current store.old store.new }
    ensures lists { SameTrail G.fixed trail.old trail.new }
    ensures held { SameStack stack.old stack.new }
    ensures left { Worked (S.width store.old) (rules_of (tree_of sheet.now))
        (mark_line (tree_of sheet.now)) stack.old.depth.fuel (S.current store.old)
        (way_of G.ahead trail.old) result (S.current store.new) (way_of G.ahead trail.new) }
{
    stack.begin(sheet);
    'run: while stack.depth.goals > 0 {
        step(sheet, store, stack, trail)?;
    }
    Ok(())
}
