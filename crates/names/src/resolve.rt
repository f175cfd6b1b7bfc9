// The sheet that a table comes to, or the first fault of its names.
ghost use Rattle.grammar.specs.Syntax.{Sheet as Written};
ghost use Rattle.grammar.specs.Tables.{Holds, WellRead};
ghost use Rattle.names.specs.Resolving.{Readable, Resolved};

use crate::layout::{mark_of, ranges_of, rules_of};
use crate::lines::number_lines;
use formula::Comparison;
use grammar::table::Table;
use refusal::Fault;
use sheet::node::{Node, Term};
use sheet::table::Sheet;

// Replaces the sheet by the one that the table comes to, or answers the first fault and leaves the sheet as it is.
pub(crate) fn resolve(text: &[u8], table: &Table, sheet: &mut Sheet) -> Result<(), Fault>
    requires { Readable text.now table.now }
    ensures { (s : Written) → Holds text.now table.now s → WellRead s
        → Resolved s sheet.old sheet.new result }
{
    let mut nodes = [Node::Compare(Term::Number(0), Comparison::Equal, Term::Number(0)); 256];
    number_lines(text, table, &mut nodes)?;
    *sheet = Sheet {
        ranges: ranges_of(&table.fields),
        rules: rules_of(&table.rules),
        mark: mark_of(table.mark),
        nodes,
    };
    Ok(())
}
