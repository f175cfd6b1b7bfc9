// Callers of the law: two marks that one walk issues differ, and a walk conducted over any store by calls that are
// given as data.
#![tactic(auto)]

ghost use Rattle.std.specs.Prelude.{◌≡◌, ◌&&◌, T, take, ◌≢◌};
ghost use Rattle.sheet.specs.Sheets.{tree_of};
ghost use Rattle.run.specs.Lists.{SameLists};
ghost use Rattle.client.specs.Sessions.{issues, TwoNexts};

use refusal::Refusal;
use run::lists::Lists;
use sheet::table::Sheet;
use store::Store;
use walk::answer::Answer;
use walk::start;

mod act;
pub mod call;
pub mod conduct;

// Whether both nexts issued a mark.
fn both_marks(one: Result<Answer, Refusal>, two: Result<Answer, Refusal>) -> bool
    ensures { result ≡ (issues one && issues two) }
{
    matches!((one, two), (Ok(Answer::Mark), Ok(Answer::Mark)))
}

// Whether two nexts of a fresh walk both issue a mark, the first into the mark list and the next into a second one; if
// they do, the marks differ.
pub fn two_marks_differ<S: Store>(
    fuel: u8,
    sheet: &Sheet,
    store: &mut S,
    lists: &mut Lists<'_>,
    second: &mut [u16],
) -> bool
    ensures own { SameLists lists.old lists.new }
    ensures told { TwoNexts (tree_of sheet.now) (S.width store.old) fuel
        (S.starting store.old) lists.old second.old result lists.new.mark.now second.new }
    ensures differ { T result →
        take (S.width store.old) lists.new.mark.now ≢ take (S.width store.old) second.new }
{
    let mut walk = start(fuel);
    let one = walk.next(sheet, store, lists);
    let mut others = Lists {
        picks: lists.picks,
        widths: lists.widths,
        goals: lists.goals,
        frames: lists.frames,
        mark: second,
    };
    let two = walk.next(sheet, store, &mut others);
    both_marks(one, two)
}
