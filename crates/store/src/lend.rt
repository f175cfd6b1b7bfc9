// Lending one row of the open store's table.
ghost use Rattle.std.specs.Prelude.{◌≡◌, ◌<◌, length, slice_index_or};
ghost use Rattle.std.specs.Borrow.{sem, follows};
ghost use Rattle.store.specs.Opens.{with_row};
ghost use Rattle.store.specs.contracts.open.OpenStore.{the_row};

use crate::open::OpenStore;

impl<R> OpenStore<R> {
    // Lends row i: the store then holds what the borrower leaves there, and all else as it was.
    pub(crate) fn row(&mut self, i: usize) -> &mut R
        requires { i < 8 }
        ensures* writes_back { sem 𝓛 (follows (the_row R.row) R.row self.entry.ghost_name result.ghost_name
            (with_row self.old i)) }
        ensures facts { (length self.old.rows ≡ 8) × ((z : R) → result.now ≡ slice_index_or self.old.rows i z) }
    {
        &mut self.rows[i]
    }
}
