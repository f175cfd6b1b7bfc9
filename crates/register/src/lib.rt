// The register store: its marks are the rows of a register that is held for reading.
#![tactic(auto)]

ghost use Rattle.std.specs.Prelude.{◌≡◌, length};
ghost use Rattle.std.specs.Slice.Iter.{chunks_exact_rest, chunks_exact_size};
ghost use Rattle.store.specs.Rules.{TellsEmpty};
ghost use Rattle.store.specs.TakenRows.{HasTaken};
ghost use Rattle.register.specs.Registers.{HasRows, numbers_of, width_of, register_start, register_left};
ghost use Rattle.register.specs.Sounds.{register_sound};

use formula::Comparison;
use refusal::Refusal;
use sheet::table::Sheet;
use std::slice::ChunksExact;
use store::Store;
use store::open::OpenStore;
use store::row::Row;

// A register, so many numbers to a row, and for each field the numbers that may still stand there.
#[derive(PartialEq, Eq, Debug, Drop)]
pub struct RegisterStore<'a> {
    register: &'a [u16],
    allowed: OpenStore,
}

impl<'a> RegisterStore<'a> {
    // The store of a sheet's fields with the marks of the register. A repeated row is one mark;
    // an unfinished last row and a row with a number above 1,023 count for nothing.
    pub fn new(sheet: &Sheet, register: &'a [u16]) -> RegisterStore<'a>
        ensures fields { width_of result ≡ length sheet.now.ranges.items }
        ensures starts { HasRows (length sheet.now.ranges.items) register.now
            (register_start result) }
        ensures left { register_left result ≡ register_start result }
    {
        RegisterStore {
            register,
            allowed: OpenStore::new(sheet),
        }
    }
}

impl RegisterStore<'_> {
    // The whole rows.
    fn rows(&self) -> ChunksExact<'_, u16>
        ensures rest { chunks_exact_rest result ≡ numbers_of self.now }
        ensures size { chunks_exact_size result ≡ width_of self.now }
    {
        self.register.chunks_exact(self.allowed.fields())
    }

    // Whether no row is left. A loop and no `any`: that it goes over the rows in a loop is a rule of the project.
    fn none_left(&self) -> bool
        ensures { TellsEmpty (width_of self.now) (register_left self.now) result }
    {
        for mark in self.rows() {
            if self.allowed.contains(mark) {
                return false;
            }
        }
        true
    }

    // The numbers that a field takes in the rows that are left.
    fn seen(&self, field: usize) -> Row
        ensures { HasTaken (width_of self.now) (register_left self.now) field result }
    {
        let mut seen = Row::none();
        if field >= self.allowed.fields() {
            return seen;
        }
        for mark in self.rows() {
            if self.allowed.contains(mark) {
                seen.add(mark[field]);
            }
        }
        seen
    }
}

impl Store for RegisterStore<'_> {
    ghost width = { width_of };

    ghost starting = { register_start };

    ghost current = { register_left };

    ghost sound = { register_sound };

    fn fields(&self) -> usize {
        self.allowed.fields()
    }

    fn restart(&mut self) {
        self.allowed.restart();
    }

    fn keep(&mut self, field: usize, sign: Comparison, number: u16) -> Result<(), Refusal> {
        self.allowed.keep(field, sign, number)
    }

    fn is_empty(&self) -> bool {
        self.none_left()
    }

    fn count(&self, field: usize) -> usize {
        self.seen(field).count()
    }

    fn value(&self, field: usize, k: usize) -> Option<u16> {
        self.seen(field).value(k)
    }
}
