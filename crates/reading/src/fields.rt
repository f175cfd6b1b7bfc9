// A mark against the fields of a sheet: its shape, and the ranges of its numbers.
ghost use Rattle.std.specs.Prelude.{◌≡◌, ◌<◌, ◌↔◌, IsTrue, EachIndex, length, slice_index};
ghost use Rattle.marks.specs.Sets.{Shaped};
ghost use Rattle.meaning.specs.Terms.{fields_of};
ghost use Rattle.meaning.specs.Reading.{ranged};
ghost use Rattle.sheet.specs.Sheets.{tree_of};
ghost use Rattle.sheet.specs.Table.{range_at};
ghost use Rattle.reading.specs.Steps.{Inside, ranges};

use sheet::node::Range;
use sheet::table::Sheet;

// Whether the list is a mark: one number for each field, none above 1,023.
pub(crate) fn is_mark(sheet: &Sheet, mark: &[u16]) -> bool
    ensures { IsTrue result ↔ Shaped (fields_of (tree_of sheet.now)) mark.now }
{
    mark.len() == sheet.field_count() && all_small(mark)
}

// Whether each number is at most 1,023.
fn all_small(mark: &[u16]) -> bool
    ensures { IsTrue result ↔ EachIndex mark.now (λ k. slice_index mark.now k < 1024) }
{
    mark.iter().all(|number| *number <= 1023)
}

// Whether the numbers of the mark lie in the ranges of their fields.
pub(crate) fn in_ranges(sheet: &Sheet, mark: &[u16]) -> bool
    requires { length mark.now ≡ length sheet.now.ranges.items }
    ensures { result ≡ ranged (ranges sheet.now) 0 mark.now }
{
    all_between(mark, &sheet.ranges)
}

// Whether each number lies in its range.
fn all_between(mark: &[u16], ranges: &[Range]) -> bool
    requires { length mark.now ≡ length ranges.now }
    ensures { IsTrue result
        ↔ EachIndex mark.now (λ k. Inside (range_at ranges.now k) (slice_index mark.now k)) }
{
    mark.iter().zip(ranges).all(|(number, range)| range.low <= *number && *number <= range.high)
}
