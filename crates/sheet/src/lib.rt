// The sheet: fields, rules and formulas in tables of fixed size, with every rule of a sheet kept by its type.
#![tactic(auto)]

pub mod node;
pub mod table;

ghost use Rattle.std.specs.Prelude.{◌≡◌, length};
ghost use Rattle.sheet.specs.Sheets.{tree_of, blank_tree, EverySheetKeeps, EntriesHold};

use arrayvec::ArrayVec;
use formula::Comparison;
use node::{Line, Node, Range, Term};
use table::Sheet;

impl Sheet {
    // The sheet that a caller begins with: one field 0 to 0, and the mark `0 = 1`.
    pub fn blank() -> Sheet
        ensures { tree_of result ≡ blank_tree }
    {
        let mut ranges = ArrayVec::new();
        ranges.push(Range::default());
        Sheet {
            ranges,
            rules: ArrayVec::new(),
            mark: Line::default(),
            nodes: [Node::Compare(Term::Number(0), Comparison::Equal, Term::Number(1)); 256],
        }
    }

    // The number of fields.
    pub fn field_count(&self) -> usize
        ensures { result ≡ length self.now.ranges.items }
    {
        self.ranges.len()
    }
}

// Every sheet keeps the rules of a sheet.
pub fn every_sheet_keeps()
    ensures { EverySheetKeeps }
{}

// Every entry of a line holds one formula.
pub fn entries_hold()
    ensures { EntriesHold }
{}
