// The entries of a sheet's table of formulas: fields, parameters, rules and parts go by their numbers.
use formula::{Comparison, Join as JoinWord};

// The field or the parameter of that number, from 0.
#[derive(Clone, Copy, PartialEq, Eq, Debug)]
pub enum Name {
    Field(u8),
    Param(u8),
}

// A term whose name is that of a field or a parameter, by its number.
pub type Term = formula::term::Term<Name>;

// A comparison; a call of a rule with so many of the terms; `not`, `pick` or a join of parts that stand before it
// in the table. A join has the weights of its two sides, plain numbers as its parts are. Parts go by their numbers,
// since a sheet is fixed memory and no call allocates. A call's terms are an array with a count, and no vector: the
// table is made by repeating one node, so a node is copied, and a vector is not.
#[derive(Clone, Copy, PartialEq, Eq, Debug)]
pub enum Node {
    Compare(Term, Comparison, Term),
    Call(u8, u8, [Term; 4]),
    Not(u8),
    Pick(Name, u8),
    Join(JoinWord, u16, u16, u8, u8),
}

// The least and the greatest number of a field.
#[derive(Clone, Copy, PartialEq, Eq, Debug, Default)]
pub struct Range {
    pub low: u16,
    pub high: u16,
}

// A rule or the mark line: how many parameters it has, and its entries, from `start` to `body`, the whole formula.
#[derive(Clone, Copy, PartialEq, Eq, Debug, Default)]
pub struct Line {
    pub params: u8,
    pub start: u8,
    pub body: u8,
}
