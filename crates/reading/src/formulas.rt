// The reading of a formula of the sheet's table.
ghost use Rattle.std.specs.Prelude.{◌≡◌, ◌≤◌, length};
ghost use Rattle.sheet.specs.Table.{line_at};
ghost use Rattle.sheet.specs.Keeping.{Within};
ghost use Rattle.sheet.specs.Sheets.{lines_in};
ghost use Rattle.reading.specs.Steps.{Read};

use crate::terms::Numbers;
use sheet::node::Node;
use sheet::table::Sheet;

// Reads the entry `node` of the line `line`, with the fuel that is there; none when it is spent. Plain evaluation that
// recurses over the sheet's table of formulas, and is not generic, is a rule of the project. The line is for the
// contract, which says by it how many parameters there are.
pub(crate) fn read(
    sheet: &Sheet,
    numbers: &Numbers<'_>,
    line: usize,
    node: usize,
    fuel: &mut u8,
) -> Option<bool>
    requires within { Within (length sheet.now.rules.items) (lines_in sheet.now) line node }
    requires fields { length numbers.now.mark.now ≡ length sheet.now.ranges.items }
    requires params { length numbers.now.args.now ≡ (line_at (lines_in sheet.now) line).params }
    ensures read { Read sheet.now numbers.now.mark.now numbers.now.args.now node fuel.old result fuel.new }
    ensures falls { fuel.new ≤ fuel.old }
{
    match sheet.nodes[node] {
        Node::Compare(left, sign, right) => {
            Some(sign.holds(numbers.of_term(left), numbers.of_term(right)))
        }
        Node::Call(rule, count, terms) => {
            *fuel = fuel.checked_sub(1)?;
            let passed = numbers.of_terms(terms);
            let (rule, count) = (usize::from(rule), usize::from(count));
            let body = usize::from(sheet.rules[rule].body);
            let mark = numbers.mark;
            let args = &passed[..count];
            read(sheet, &Numbers { mark, args }, rule, body, fuel)
        }
        Node::Not(part) => Some(!read(sheet, numbers, line, usize::from(part), fuel)?),
        Node::Pick(_, part) => read(sheet, numbers, line, usize::from(part), fuel),
        Node::Join(join, _, _, first, second) => {
            let result = read(sheet, numbers, line, usize::from(first), fuel)?;
            // the other result decides the join, and its right side is not read
            if result != join.wants() {
                Some(result)
            } else {
                read(sheet, numbers, line, usize::from(second), fuel)
            }
        }
    }
}
