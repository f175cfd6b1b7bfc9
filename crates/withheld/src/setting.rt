// Setting pairs: a layer begins with none, and each that is set restarts it.
ghost use Rattle.std.specs.Prelude.{◌≡◌, []};
ghost use Rattle.withheld.specs.Withholding.{pairs_of, without, Withholds};
ghost use Rattle.withheld.specs.Restarting.{Restarts};

use crate::layer::Withheld;
use crate::pair::Pair;
use arrayvec::ArrayVec;
use formula::Comparison;
use refusal::Refusal;
use store::{GREATEST, Store};

impl<S: Store> Withheld<S> {
    // A layer over a store that withholds nothing yet.
    pub fn new(lower: S) -> Withheld<S>
        ensures pairs { pairs_of result ≡ [] }
        ensures lower { result.lower ≡ lower }
        ensures starts { without (pairs_of result) (S.Store.starting result.lower) ≡ S.Store.starting lower }
    {
        Withheld {
            pairs: ArrayVec::new(),
            lower,
        }
    }

    // Withholds the marks that have this number at this field, from the start.
    pub fn withhold(&mut self, field: usize, number: u16) -> Result<(), Refusal>
        ensures { Withholds S.Store.width S.Store.starting S.Store.current
            self.old self.new field number result }
    {
        if field >= self.lower.fields() || number > GREATEST {
            return Err(Refusal::Outside);
        }
        self.pairs
            .try_push(Pair { field, number })
            .map_err(|_| Refusal::PairsFull)?;
        self.refresh();
        Ok(())
    }

    // Begins anew: the lower store's start without the pairs.
    pub(crate) fn refresh(&mut self)
        ensures { Restarts S.Store.width S.Store.starting S.Store.current
            self.old self.new }
    {
        let Withheld { pairs, lower } = self;
        lower.restart();
        for pair in pairs.iter() {
            // A pair outside the lower store is refused there, and no mark holds it.
            let _ = lower.keep(pair.field, Comparison::Differ, pair.number);
        }
    }
}
