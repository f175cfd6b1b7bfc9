// Reads a sheet from its text, layer by layer.
ghost use Rattle.names.specs.Reading.{OneReading, Reads};
ghost use Rattle.names.specs.Layers.{Tabled};

use crate::resolve::resolve;
use crate::summary::Contents;
use grammar::table::Table;
use refusal::Fault;
use sheet::table::Sheet;

// The table of a text: its bytes are cut into tokens, and these are parsed. Crate advice has these two lines as well,
// with a contract of its own, of a text that may end too early: one for both would be longer than they are.
fn table_of(text: &[u8]) -> Result<Table, Fault>
    ensures { Tabled text.now result }
{
    signs::survey(text)?;
    grammar::parse(text)
}

// Replaces the sheet by the one that the text spells; or answers the text's first fault and leaves the sheet as it is.
#[tactic(auto, using(crate::proofs::Readings::one_reading))]
pub fn read(text: &[u8], sheet: &mut Sheet) -> Result<Contents, Fault>
    ensures reads { Reads text.now sheet.old sheet.new result }
    ensures one_reading { OneReading text.now }
{
    let table = table_of(text)?;
    resolve(text, &table, sheet)?;
    // std has no `From<usize>` for `u64`, so lengths are cast
    Ok(Contents {
        fields: table.fields.len() as u64,
        rules: table.rules.len() as u64,
        formulas: u64::from(table.mark.body) + 1,
    })
}
