// The lines of a sheet.
ghost use Rattle.std.specs.Prelude.{◌≡◌};
ghost use Rattle.grammar.specs.Parsing.{Along, Takes, Passes, HeadRead, Grown, BodyRead, FieldRead, RuleRead, MarkRead};

use crate::body::Body;
use crate::cursor::Cursor;
use crate::few::Few;
use crate::formula_part::read_formula;
use crate::table::{FieldLine, Table, Word};
use crate::token::Class;
use refusal::Fault;

// The name of a rule and its parameters.
#[derive(Clone, Copy, PartialEq, Eq, Debug)]
pub(crate) struct Head {
    pub(crate) name: Word,
    pub(crate) params: Few<Word>,
}

// The head of a rule, after the word `rule`, up to the colon.
fn read_head(cursor: &mut Cursor<'_>) -> Result<Head, Fault>
    ensures { Takes cursor.old cursor.new result HeadRead }
{
    let name = cursor.name()?;
    cursor.expect(Class::Opening)?;
    let params = cursor.list()?;
    cursor.expect(Class::Colon)?;
    Ok(Head { name, params })
}

// The formula of a line, and the semicolon.
fn read_body(cursor: &mut Cursor<'_>, table: &mut Table) -> Result<Body, Fault>
    ensures grown { Grown table.old table.new }
    ensures value { Takes cursor.old cursor.new result (λ text p r. BodyRead text p table.old table.new r) }
{
    let start = table.nodes.len();
    let part = read_formula(cursor, 16, None, table)?;
    cursor.expect(Class::Semicolon)?;
    Ok(Body { start, part })
}

// The rest of a field line, after the word `field` at `first`.
pub(crate) fn read_field(
    cursor: &mut Cursor<'_>,
    first: usize,
    table: &mut Table,
) -> Result<(), Fault>
    ensures entries { table.new.nodes ≡ table.old.nodes }
    ensures value { Passes cursor.old cursor.new result (λ text p r. FieldRead text p first table.old table.new r) }
{
    let name = cursor.name()?;
    let low = cursor.number()?;
    let high = cursor.number()?;
    cursor.expect(Class::Semicolon)?;
    table.keep_field(FieldLine {
        first,
        name,
        low,
        high,
    });
    Ok(())
}

// The rest of a rule line, after the word `rule` at `first`.
pub(crate) fn read_rule(
    cursor: &mut Cursor<'_>,
    first: usize,
    table: &mut Table,
) -> Result<(), Fault>
    ensures { Passes cursor.old cursor.new result (λ text p r. RuleRead text p first table.old table.new r) }
{
    let head = read_head(cursor)?;
    let body = read_body(cursor, table)?;
    table.keep_rule(first, head, body);
    Ok(())
}

// The mark line, and the end of the text.
pub(crate) fn read_mark(cursor: &mut Cursor<'_>, table: &mut Table) -> Result<(), Fault>
    ensures { Along cursor.old cursor.new (λ text. MarkRead text cursor.old.at table.old table.new result) }
{
    let first = cursor.expect(Class::Mark)?;
    let body = read_body(cursor, table)?;
    cursor.expect(Class::End)?;
    table.keep_mark(first, body);
    Ok(())
}
