// How the end of a run is told: by an answer, and by a mark at the front of the mark list.
ghost use Rattle.std.specs.Prelude.{◌≤◌, length, IfOk};
ghost use Rattle.run.specs.Whole.{Reported};

use crate::answer::Ended;
use crate::finish::Numbers;
use crate::stop::Stop;

// Fills the front of the mark list with a mark; how the run ended, or none where it was halted.
pub(crate) fn report(end: Result<Numbers, Stop>, mark: &mut [u16]) -> Option<Ended>
    requires room { IfOk end (λ m. length m.items ≤ length mark.old) }
    ensures { Reported end mark.old result mark.new }
{
    match end {
        Ok(numbers) => {
            mark[..numbers.len()].copy_from_slice(&numbers);
            Some(Ended::Mark)
        }
        Err(Stop::DeadEnd) => Some(Ended::DeadEnd),
        Err(Stop::Spent) => Some(Ended::Spent),
        Err(Stop::Halted) => None,
    }
}
