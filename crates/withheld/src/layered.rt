// The withheld layer as a store: its current set is the lower one's, and a restart takes the pairs out again.
ghost use Rattle.std.specs.Prelude.{◌≡◌};
ghost use Rattle.store.specs.Rules.{Stays, Keeps};
ghost use Rattle.withheld.specs.Withholding.{pairs_of, without};
ghost use Rattle.withheld.specs.Sounds.{layer_sound};

use crate::layer::Withheld;
use formula::Comparison;
use refusal::Refusal;
use store::Store;

impl<S: Store> Store for Withheld<S> {
    ghost width = { λ w. S.Store.width w.lower };

    ghost starting = { λ w. without (pairs_of w) (S.Store.starting w.lower) };

    ghost current = { λ w. S.Store.current w.lower };

    ghost sound = { layer_sound S.Store.sound };

    fn fields(&self) -> usize {
        self.lower.fields()
    }

    // The pairs stay, each as often as it was set.
    fn restart(&mut self)
        ensures pairs { pairs_of self.new ≡ pairs_of self.old }
        ensures lower { Stays S.Store.width S.Store.starting self.old.lower self.new.lower }
        ensures left { S.Store.current self.new.lower
            ≡ without (pairs_of self.old) (S.Store.starting self.old.lower) }
    {
        self.refresh();
    }

    // The pairs stay here too.
    fn keep(&mut self, field: usize, sign: Comparison, number: u16) -> Result<(), Refusal>
        ensures pairs { pairs_of self.new ≡ pairs_of self.old }
        ensures lower { Stays S.Store.width S.Store.starting self.old.lower self.new.lower }
        ensures left { Keeps (S.Store.width self.old.lower) (S.Store.current self.old.lower)
            (S.Store.current self.new.lower) field sign number result }
    {
        self.lower.keep(field, sign, number)
    }

    fn is_empty(&self) -> bool {
        self.lower.is_empty()
    }

    fn count(&self, field: usize) -> usize {
        self.lower.count(field)
    }

    fn value(&self, field: usize, k: usize) -> Option<u16> {
        self.lower.value(field, k)
    }
}
