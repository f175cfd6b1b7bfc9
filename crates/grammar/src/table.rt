// A sheet as it is written, in tables of fixed size: what the grammar fills and the names are looked up in.
// A spelling is kept as a span of the text, so that a table borrows nothing. What a table stands for is said in
// specs/Tables.antt.
ghost use Rattle.std.specs.Prelude.{◌≡◌, ℕ, List, [], None};
ghost use Rattle.grammar.specs.Tables.{LinesAbove, blank_node};

use crate::copy_vec::CopyVec;
use crate::few::Few;
use formula::{Comparison, Join};

// A name: the place of its first byte in the text, and how many bytes it has.
#[derive(Clone, Copy, PartialEq, Eq, Debug, Default)]
pub struct Word {
    pub place: usize,
    pub length: usize,
}

// A number and its place.
#[derive(Clone, Copy, PartialEq, Eq, Debug, Default)]
pub struct Number {
    pub value: u16,
    pub place: usize,
}

// A term whose name is a span of the text.
pub type Term = formula::term::Term<Word>;

// The weights after a join.
#[derive(Clone, Copy, PartialEq, Eq, Debug)]
pub struct Weights {
    pub left: Number,
    pub right: Number,
}

// A formula whose parts are entries of the same table, by their numbers: nothing is allocated, so no part is boxed.
// The parts stand before the whole. Of a call's terms a fifth need not be kept, since such a call is at fault at its
// name, before its terms. No one generic node serves here and in a sheet, as one term does: names, rules, counts and
// weights differ, and it would have four parameters.
#[derive(Clone, Copy, PartialEq, Eq, Debug)]
pub enum Node {
    Compared(Comparison, Term, Term),
    Called(Word, Few<Term>),
    Negated(u8),
    Picked(Word, u8),
    Joined(Join, Option<Weights>, u8, u8),
}

// A field line, with the place of its first word.
#[derive(Clone, Copy, PartialEq, Eq, Debug, Default)]
pub struct FieldLine {
    pub first: usize,
    pub name: Word,
    pub low: Number,
    pub high: Number,
}

// A rule line, with the place of its first word. Its formula is all the entries from `start` to `body`.
#[derive(Clone, Copy, PartialEq, Eq, Debug, Default)]
pub struct RuleLine {
    pub first: usize,
    pub name: Word,
    pub params: CopyVec<Word, 4>,
    pub start: u8,
    pub body: u8,
}

// The mark line, with the place of its first word. Its formula is all the entries from `start` to `body`.
#[derive(Clone, Copy, PartialEq, Eq, Debug, Default)]
pub struct MarkLine {
    pub first: usize,
    pub start: u8,
    pub body: u8,
}

// The lines of a sheet, up to the first that passes a count limit.
#[derive(Clone, Copy, PartialEq, Eq, Debug, Default)]
pub struct Table {
    pub fields: CopyVec<FieldLine, 8>,
    pub rules: CopyVec<RuleLine, 16>,
    pub mark: MarkLine,
    pub nodes: CopyVec<Node, 256>,
    // the place of the first word of the first line that passes a limit: from it on nothing is kept
    pub over: Option<usize>,
}

// The entry that stands where none is used.
impl Default for Node {
    ghost is_default = { λ node. node ≡ blank_node };

    fn default() -> Node {
        Node::Compared(Comparison::Equal, Term::Number(0), Term::Number(0))
    }
}

impl Table {
    // A table without lines.
    pub fn blank() -> Table
        ensures lines { (text : List ℕ) → LinesAbove text result [] [] 0 }
        ensures entries { result.nodes.items ≡ [] }
        ensures over { result.over ≡ None }
    {
        Table::default()
    }
}
