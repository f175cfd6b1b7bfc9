// A sheet: ranges, lines, and one table for all formulas, in vectors of fixed capacity and an array, since a sheet is
// fixed memory and no call allocates. The ghost fields say what every sheet keeps.
ghost use Rattle.std.specs.Prelude.{◌≡◌, ℕ, ◌<◌, ◌≤◌, length};
ghost use Rattle.sheet.specs.Keeping.{RangesKept, LinesKept, EntriesKept, FewJoins, Shallow, FewFormulas};
ghost use Rattle.sheet.specs.Table.{lines_of};

use crate::node::{Line, Node, Range};
use arrayvec::ArrayVec;

// No equality is derived: entries past those of the lines mean nothing, and the same rules may stand at other entries.
#[derive(Debug, Drop)]
pub struct Sheet {
    pub ranges: ArrayVec<Range, 8>,
    pub rules: ArrayVec<Line, 16>,
    pub mark: Line,
    pub nodes: [Node; 256],
    ghost long: { length nodes ≡ 256 },
    ghost some_fields: { (1 ≤ length ranges.items) × (length ranges.items ≤ 8) },
    ghost few_rules: { length rules.items ≤ 16 },
    ghost ranges_kept: { RangesKept (length ranges.items) ranges.items },
    ghost lines_kept: { LinesKept (length rules.items) (lines_of rules.items mark) },
    ghost mark_plain: { mark.params ≡ 0 },
    ghost entries_kept: { EntriesKept (length ranges.items) (length rules.items) (lines_of rules.items mark) nodes },
    ghost few_joins: { FewJoins (length rules.items) (lines_of rules.items mark) nodes },
    ghost shallow: { Shallow (length rules.items) (lines_of rules.items mark) nodes },
    ghost few_formulas: { FewFormulas rules.items mark nodes },
}
