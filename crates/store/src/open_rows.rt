// The open store is a store: keep narrows the row of its field.
ghost use Rattle.std.specs.Prelude.{◌≡◌, ◌≤◌, take, length};
ghost use Rattle.store.specs.Rules.{TellsEmpty};
ghost use Rattle.store.specs.Opens.{HasEvery, open_start, open_left};
ghost use Rattle.store.specs.TakenRows.{LendsTaken};
ghost use Rattle.store.specs.Sounds.{open_sound};

use crate::open::OpenStore;
use crate::row::Row;
use crate::{GREATEST, Store};
use formula::Comparison;
use refusal::Refusal;
use sheet::table::Sheet;

impl OpenStore {
    // The open store of a sheet's fields, with every mark.
    pub fn new(sheet: &Sheet) -> OpenStore
        ensures fields { result.width ≡ length sheet.now.ranges.items }
        ensures starts { HasEvery (length sheet.now.ranges.items) (open_start result) }
        ensures left { open_left result ≡ open_start result }
    {
        OpenStore::with_every_mark(sheet.field_count())
    }

    // The open store of so many fields, with every mark.
    fn with_every_mark(width: usize) -> OpenStore
        requires { (1 ≤ width) × (width ≤ 8) }
        ensures fields { result.width ≡ width }
        ensures starts { HasEvery width (open_start result) }
        ensures left { open_left result ≡ open_start result }
    {
        OpenStore {
            width,
            rows: [Row::full(); 8],
        }
    }

    // Whether the current set has this mark.
    pub fn contains(&self, mark: &[u16]) -> bool
        ensures { result ≡ open_left self.now mark.now }
    {
        mark.len() == self.width
            && mark
                .iter()
                .zip(self.in_use())
                .all(|(number, row)| row.holds(*number))
    }

    // The rows of the fields.
    fn in_use(&self) -> &[Row]
        ensures { result.now ≡ take self.now.width self.now.rows }
    {
        &self.rows[..self.width]
    }

    // Whether no mark is left: a row that is in use has no number.
    fn has_empty_row(&self) -> bool
        ensures { TellsEmpty self.now.width (open_left self.now) result }
    {
        self.in_use().iter().any(Row::is_empty)
    }

    // The row of the numbers that a field takes in the current set, if it takes any.
    fn taken(&self, field: usize) -> Option<&Row>
        ensures { LendsTaken self.now.width (open_left self.now) field result }
    {
        if self.has_empty_row() {
            return None;
        }
        self.in_use().get(field)
    }
}

impl Store for OpenStore {
    ghost width = { λ s. s.width };

    ghost starting = { open_start };

    ghost current = { open_left };

    ghost sound = { open_sound };

    fn fields(&self) -> usize {
        self.width
    }

    fn restart(&mut self) {
        *self = OpenStore::with_every_mark(self.width);
    }

    fn keep(&mut self, field: usize, sign: Comparison, number: u16) -> Result<(), Refusal> {
        if field >= self.width || number > GREATEST {
            return Err(Refusal::Outside);
        }
        self.row(field).narrow(sign, number);
        Ok(())
    }

    fn is_empty(&self) -> bool {
        self.has_empty_row()
    }

    fn count(&self, field: usize) -> usize {
        self.taken(field).map_or(0, Row::count)
    }

    fn value(&self, field: usize, k: usize) -> Option<u16> {
        self.taken(field)?.value(k)
    }
}
