// Formulas: a formula and a unit are read by two functions that call each other.
// The cursor and the table stay two parameters: names, terms and weights are read with no table, and lines are kept
// with no cursor.
ghost use Rattle.std.specs.Prelude.{◌≡◌, ◌+◌, ◌<◌, ◌^◌, Decides};
ghost use Rattle.grammar.specs.Grammar.{Fits, strict};
ghost use Rattle.grammar.specs.Parsing.{level_of, around, Takes, Enters, WeightsRead};
ghost use Rattle.grammar.specs.Parsing.{ComparisonRead, CallRead, NamedRead, UnitRead, FormulaRead};

use crate::cursor::Cursor;
use crate::table::{Node, Table, Term, Weights, Word};
use crate::token::Class;
use formula::Join;
use refusal::{Fault, Refusal};

// A formula that was read: the entry that is the whole, and how many formulas and joins it has.
#[derive(Clone, Copy, PartialEq, Eq, Debug)]
pub(crate) struct Part {
    pub(crate) body: u8,
    pub(crate) size: usize,
    pub(crate) joins: usize,
}

// Whether a join may stand at a level: any, or those of one kind only.
fn fits(level: Option<Join>, join: Join) -> bool
    ensures { Decides result (Fits strict (level_of level) join) }
{
    level.is_none_or(|only| only == join)
}

impl Part {
    // A formula of one entry: a comparison or a call.
    fn single(body: u8) -> Part
        ensures { result ≡ record { body = body; size = 1; joins = 0 } }
    {
        Part {
            body,
            size: 1,
            joins: 0,
        }
    }

    // The formula `body` around this one.
    fn within(self, body: u8) -> Part
        requires { self.size + 1 < 2 ^ 64 }
        ensures { result ≡ around self body }
    {
        Part {
            body,
            size: self.size + 1,
            joins: self.joins,
        }
    }
}

// The weights after a join, if they are written.
fn read_weights(cursor: &mut Cursor<'_>) -> Result<Option<Weights>, Fault>
    ensures { Takes cursor.old cursor.new result WeightsRead }
{
    let first = cursor.peek();
    let Some(left) = first.number() else {
        return Ok(None);
    };
    let second = Cursor {
        text: cursor.text,
        at: first.end,
    }
    .peek();
    let Class::Colon = second.class else {
        return Ok(None);
    };
    cursor.at = second.end;
    let right = cursor.number()?;
    Ok(Some(Weights { left, right }))
}

// The rest of a comparison, after its left term.
fn read_comparison(cursor: &mut Cursor<'_>, left: Term, table: &mut Table) -> Result<Part, Fault>
    ensures { Enters cursor.old cursor.new table.old table.new result (λ text p. ComparisonRead text p left) }
{
    let sign = cursor.sign()?;
    let right = cursor.term()?;
    let body = table.push(Node::Compared(sign, left, right));
    Ok(Part::single(body))
}

// The rest of a call, after its opening bracket.
fn read_call(cursor: &mut Cursor<'_>, word: Word, table: &mut Table) -> Result<Part, Fault>
    ensures { Enters cursor.old cursor.new table.old table.new result (λ text p. CallRead text p word) }
{
    let terms = cursor.list()?;
    let body = table.push(Node::Called(word, terms));
    Ok(Part::single(body))
}

// The rest of a unit that begins with a name: a call or a comparison.
fn read_named(cursor: &mut Cursor<'_>, word: Word, table: &mut Table) -> Result<Part, Fault>
    ensures { Enters cursor.old cursor.new table.old table.new result (λ text p. NamedRead text p word) }
{
    if cursor.pass_if(Class::Opening).is_some() {
        return read_call(cursor, word, table);
    }
    let left = cursor.sum(word)?;
    read_comparison(cursor, left, table)
}

// A formula with at most `depth` levels in it, at a level.
#[cycle(read_formula_read_unit)]
pub(crate) fn read_formula(
    cursor: &mut Cursor<'_>,
    depth: u8,
    level: Option<Join>,
    table: &mut Table,
) -> Result<Part, Fault>
    ensures { Enters cursor.old cursor.new table.old table.new result (λ text p.
        FormulaRead text depth (level_of level) p) }
{
    let left = read_unit(cursor, depth, table)?;
    let ahead = cursor.peek();
    let Class::Join(join) = ahead.class else {
        return Ok(left);
    };
    if !fits(level, join) {
        return Err(Refusal::JoinMixes.at(ahead.place));
    }
    cursor.at = ahead.end;
    let weights = read_weights(cursor)?;
    let right = read_formula(cursor, depth, Some(join), table)?;
    let body = table.push(Node::Joined(join, weights, left.body, right.body));
    Ok(Part {
        body,
        size: left.size + right.size + 1,
        joins: left.joins + right.joins + 1,
    })
}

// A unit with at most `depth` levels in it.
#[cycle(read_formula_read_unit)]
fn read_unit(cursor: &mut Cursor<'_>, depth: u8, table: &mut Table) -> Result<Part, Fault>
    ensures { Enters cursor.old cursor.new table.old table.new result (λ text p. UnitRead text depth p) }
{
    let ahead = cursor.peek();
    match ahead.class {
        Class::Number(value) => {
            cursor.at = ahead.end;
            read_comparison(cursor, Term::Number(value), table)
        }
        Class::Name(word) => {
            cursor.at = ahead.end;
            read_named(cursor, word, table)
        }
        Class::Not => {
            let allowed = ahead.deeper(depth)?;
            cursor.at = ahead.end;
            let inner = read_unit(cursor, allowed, table)?;
            let body = table.push(Node::Negated(inner.body));
            Ok(inner.within(body))
        }
        Class::Pick => {
            let allowed = ahead.deeper(depth)?;
            cursor.at = ahead.end;
            let name = cursor.name()?;
            let inner = read_unit(cursor, allowed, table)?;
            let body = table.push(Node::Picked(name, inner.body));
            Ok(inner.within(body))
        }
        Class::Opening => {
            let allowed = ahead.deeper(depth)?;
            cursor.at = ahead.end;
            let inner = read_formula(cursor, allowed, None, table)?;
            cursor.expect(Class::Closing)?;
            Ok(inner)
        }
        _ => Err(ahead.not_permitted()),
    }
}
