// A run along recorded entries.
ghost use Rattle.sheet.specs.Sheets.{tree_of};
ghost use Rattle.run.specs.Answering.{setting, Follows, Leaves};
ghost use Rattle.run.specs.Lists.{held, SameLists};
ghost use Rattle.store.specs.Rules.{Stays};

use crate::admit::admit;
use crate::along::run;
use crate::answer::Ran;
use crate::guide::Recorded;
use crate::lists::Lists;
use crate::report::report;
use refusal::Refusal;
use sheet::table::Sheet;
use store::Store;

// A run along the first `given` entries of the trace lists to their end, with pick 0 past them.
pub fn follow<S: Store>(
    sheet: &Sheet,
    store: &mut S,
    fuel: u8,
    given: usize,
    lists: &mut Lists<'_>,
) -> Result<Ran, Refusal>
    ensures same { Stays S.width S.starting store.old store.new }
    ensures current { Leaves (S.starting store.old) (S.current store.old)
        (S.current store.new) result }
    ensures own { SameLists lists.old lists.new }
    ensures left { Follows
        (setting (tree_of sheet.now) fuel (S.width store.old) (S.starting store.old)) given
        (held lists.old) result (held lists.new) }
{
    admit(sheet, store, fuel, given, lists)?;
    let Ran { ended, length } = run(sheet, store, fuel, &mut Recorded { given }, lists);
    if length < given {
        return Err(Refusal::TraceUnfit);
    }
    let ended = report(ended, lists.mark).ok_or(Refusal::TraceUnfit)?;
    Ok(Ran { ended, length })
}
