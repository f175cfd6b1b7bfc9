// The lines of a sheet one by one: the first fault of each, and their entries by numbers.
ghost use Rattle.names.specs.Looking.{FieldsSettled, RulesSettled, LinesSettled};

use crate::declared::{check_field, check_names};
use crate::layout::{line_of, mark_of};
use crate::scope::Scope;
use grammar::table::{Node as WrittenNode, Table};
use refusal::{Fault, Refusal};
use sheet::node::Node;

// The first fault of the field lines.
fn check_fields(scope: Scope) -> Result<(), Fault>
    ensures { FieldsSettled scope.entry result }
{
    for (i, field) in scope.fields.iter().enumerate() {
        check_field(scope.text, &scope.fields[..i], *field)?;
    }
    Ok(())
}

// Writes the entries of the rule lines by their numbers, or answers their first fault.
fn number_rules(scope: Scope, entries: &[WrittenNode], nodes: &mut [Node; 256]) -> Result<(), Fault>
    ensures { RulesSettled scope.entry entries.now nodes.new result }
{
    for (i, rule) in scope.rules.iter().enumerate() {
        check_names(scope.of_line(i, &rule.params), rule.name)?;
        scope
            .of_line(i + 1, &rule.params)
            .number_entries(entries, line_of(rule), nodes)?;
    }
    Ok(())
}

// Writes all entries by their numbers, or answers the first fault of the sheet. The first line that passes a
// count limit is at fault at its first word; every fault of the lines above stands before it.
pub(crate) fn number_lines(text: &[u8], table: &Table, nodes: &mut [Node; 256]) -> Result<(), Fault>
    ensures { LinesSettled text.now table.now nodes.new result }
{
    let scope = Scope {
        text,
        fields: &table.fields,
        rules: &table.rules,
        params: &[],
    };
    check_fields(scope)?;
    number_rules(scope, &table.nodes, nodes)?;
    if let Some(place) = table.over {
        return Err(Refusal::TooMany.at(place));
    }
    scope.number_entries(&table.nodes, mark_of(table.mark), nodes)
}
