// A draw: a run by the numbers of a source.
ghost use Rattle.sheet.specs.Sheets.{tree_of};
ghost use Rattle.run.specs.Answering.{setting, AnswersDraw, Leaves};
ghost use Rattle.run.specs.Lists.{held, SameLists};
ghost use Rattle.store.specs.Rules.{Stays};

use crate::admit::admit;
use crate::along::run;
use crate::answer::{Ended, Ran};
use crate::guide::Drawn;
use crate::lists::Lists;
use crate::report::report;
use refusal::Refusal;
use sheet::table::Sheet;
use source::Source;
use store::Store;

// A run by the numbers of a source, one for each choice.
pub fn draw<S: Store, R: Source>(
    sheet: &Sheet,
    store: &mut S,
    fuel: u8,
    source: &mut R,
    lists: &mut Lists<'_>,
) -> Result<Ran<Option<Ended>>, Refusal>
    ensures same { Stays S.width S.starting store.old store.new }
    ensures current { Leaves (S.starting store.old) (S.current store.old)
        (S.current store.new) result }
    ensures own { SameLists lists.old lists.new }
    ensures left { AnswersDraw
        (setting (tree_of sheet.now) fuel (S.width store.old) (S.starting store.old))
        (R.waiting source.old) (R.waiting source.new)
        (held lists.old) result (held lists.new) }
{
    admit(sheet, store, fuel, 0, lists)?;
    let Ran { ended, length } = run(sheet, store, fuel, &mut Drawn { source }, lists);
    let ended = report(ended, lists.mark);
    Ok(Ran { ended, length })
}
