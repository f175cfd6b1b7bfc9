// The ranges and lines of a sheet, from its tables: no `From`, since the types are of other crates. They push, since
// `collect` takes an allocator, and the error of `extend`, for a full vector, would have to be dropped.
ghost use Rattle.std.specs.Prelude.{◌≡◌, ◌≤◌, length};
ghost use Rattle.sheet.specs.declared.node.Line.{Line};
ghost use Rattle.names.specs.Looking.{RangesOf, LinesOf, MarkOf};

use arrayvec::ArrayVec;
use grammar::table::{FieldLine, MarkLine, RuleLine};
use sheet::node::{Line, Range};

// The ranges of the field lines.
pub(crate) fn ranges_of(fields: &[FieldLine]) -> ArrayVec<Range, 8>
    requires { length fields.now ≤ 8 }
    ensures { RangesOf fields.now result.items }
{
    let mut ranges = ArrayVec::new();
    for field in fields {
        ranges.push(Range {
            low: field.low.value,
            high: field.high.value,
        });
    }
    ranges
}

// The line of a rule line.
pub(crate) fn line_of(rule: &RuleLine) -> Line
    ensures { result ≡ record { params = length rule.now.params.items; start = rule.now.start; body = rule.now.body } }
{
    Line {
        params: rule.params.len() as u8,
        start: rule.start,
        body: rule.body,
    }
}

// The lines of the rule lines.
pub(crate) fn rules_of(rules: &[RuleLine]) -> ArrayVec<Line, 16>
    requires { length rules.now ≤ 16 }
    ensures { LinesOf rules.now result.items }
{
    let mut lines = ArrayVec::new();
    for rule in rules {
        lines.push(line_of(rule));
    }
    lines
}

// The line of the mark line, which has no parameters.
pub(crate) fn mark_of(mark: MarkLine) -> Line
    ensures { MarkOf mark result }
{
    Line {
        params: 0,
        start: mark.start,
        body: mark.body,
    }
}
