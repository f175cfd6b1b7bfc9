// Why a run stops before its end.
ghost use Rattle.run.specs.Comparing.{Lives};

use store::Store;

// No mark is left, or no fuel, or the run is halted where no pick is told.
#[derive(Clone, Copy, Debug, PartialEq, Eq)]
pub(crate) enum Stop {
    DeadEnd,
    Spent,
    Halted,
}

// A dead end where the store has no mark left. That it has some, which contracts ask, is no fact of a store or a run:
// after a dead end it may have none.
pub(crate) fn alive<S: Store>(store: &S) -> Result<(), Stop>
    ensures { Lives (S.width store.now) (S.current store.now) result }
{
    if store.is_empty() {
        return Err(Stop::DeadEnd);
    }
    Ok(())
}
