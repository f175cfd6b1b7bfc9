// The grammar of a sheet.
#![tactic(auto)]

mod body;
pub mod copy_vec;
mod cursor;
pub mod few;
mod fill;
mod formula_part;
mod line;
mod list;
mod sheet;
pub mod table;
mod term;
mod token;

ghost use Rattle.grammar.specs.Laws.{Unambiguous, OneVerdict, ReadBack, EverySheetWellRead};

pub use sheet::parse;

// A list of tokens is one sheet at most.
pub fn unambiguous()
    ensures { Unambiguous }
{}

// Every list of tokens is one sheet, or is refused with one number at one place, and not both.
pub fn one_verdict()
    ensures { OneVerdict }
{}

// A sheet that is written out is read back.
pub fn read_back()
    ensures { ReadBack }
{}

// Of tokens whose places rise and whose numbers are small, a sheet keeps both, and nests at most 16 deep.
pub fn well_read()
    ensures { EverySheetWellRead }
{}
