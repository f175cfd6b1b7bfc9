// A sheet: field lines, rule lines and the mark line.
// The loops over field lines and over rule lines stay two: each is one line, and one loop for both would take the word,
// the reader of a line and what it keeps of the table, and be called twice.
ghost use Rattle.std.specs.Prelude.{◌≡◌, ℕ, List, [], None};
ghost use Rattle.grammar.specs.Answers.{Parsed};
ghost use Rattle.grammar.specs.Tables.{LinesAbove};
ghost use Rattle.grammar.specs.Parsing.{Passes, FirstRead, FieldsRead, RulesRead, parsed_to};

use crate::cursor::Cursor;
use crate::line::{read_field, read_mark, read_rule};
use crate::table::Table;
use crate::token::Class;
use refusal::Fault;

// The first line, which is a field line.
fn read_first(cursor: &mut Cursor<'_>, table: &mut Table) -> Result<(), Fault>
    ensures entries { table.new.nodes ≡ table.old.nodes }
    ensures value { Passes cursor.old cursor.new result (λ text p r. FirstRead text p table.old table.new r) }
{
    let first = cursor.expect(Class::Field)?;
    read_field(cursor, first, table)
}

// The field lines that follow.
fn read_fields(cursor: &mut Cursor<'_>, table: &mut Table) -> Result<(), Fault>
    ensures entries { table.new.nodes ≡ table.old.nodes }
    ensures value { Passes cursor.old cursor.new result (λ text p r. FieldsRead text p table.old table.new r) }
{
    while let Some(first) = cursor.pass_if(Class::Field) {
        read_field(cursor, first, table)?;
    }
    Ok(())
}

// The rule lines that follow.
fn read_rules(cursor: &mut Cursor<'_>, table: &mut Table) -> Result<(), Fault>
    ensures { Passes cursor.old cursor.new result (λ text p r. RulesRead text p table.old table.new r) }
{
    while let Some(first) = cursor.pass_if(Class::Rule) {
        read_rule(cursor, first, table)?;
    }
    Ok(())
}

// The lines of a sheet, into a table without lines.
fn read_sheet(text: &[u8], table: &mut Table) -> Result<(), Fault>
    requires lines { (bytes : List ℕ) → LinesAbove bytes table.old [] [] 0 }
    requires entries { table.old.nodes.items ≡ [] }
    requires over { table.old.over ≡ None }
    ensures { Parsed text.now (parsed_to table.new result) }
{
    let mut cursor = Cursor { text, at: 0 };
    read_first(&mut cursor, table)?;
    read_fields(&mut cursor, table)?;
    read_rules(&mut cursor, table)?;
    read_mark(&mut cursor, table)
}

// Parses a text that can be cut into tokens: the sheet as it is written, or the first fault of its grammar.
pub fn parse(text: &[u8]) -> Result<Table, Fault>
    ensures { Parsed text.now result }
{
    let mut table = Table::blank();
    read_sheet(text, &mut table)?;
    Ok(table)
}
