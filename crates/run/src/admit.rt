// What a run asks before it begins.
ghost use Rattle.sheet.specs.Sheets.{tree_of};
ghost use Rattle.run.specs.Answering.{setting, Admits};
ghost use Rattle.run.specs.Lists.{held};

use crate::lists::Lists;
use refusal::Refusal;
use sheet::table::Sheet;
use store::Store;

// Whether a run along the first `given` entries may begin: the store has the sheet's fields, and the lists are long
// enough. The functions within ask of store and sheet again that they agree in fields: a struct of the two would be
// taken apart by every part of a run that takes the store without the sheet.
pub fn admit<S: Store>(
    sheet: &Sheet,
    store: &S,
    fuel: u8,
    given: usize,
    lists: &Lists<'_>,
) -> Result<(), Refusal>
    ensures { Admits
        (setting (tree_of sheet.now) fuel (S.width store.now) (S.starting store.now)) given
        (held lists.now) result }
{
    if store.fields() != sheet.field_count() {
        return Err(Refusal::FieldsDiffer);
    }
    if !lists.are_long_enough(fuel, sheet.field_count(), given) {
        return Err(Refusal::ListTooShort);
    }
    Ok(())
}
