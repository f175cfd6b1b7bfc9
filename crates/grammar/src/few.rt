// A list of which the first four items are kept, and all are counted.
// The count is of the items as they are written, of which there may be more than four: no vector of four says that.
ghost use Rattle.std.specs.Prelude.{◌≡◌, ◌+◌, ◌^◌, ◌<◌, List, [], ◌∷◌, ◌++◌};
ghost use Rattle.grammar.specs.Parsing.{Holds4};

#[derive(Clone, Copy, PartialEq, Eq, Debug)]
pub struct Few<T> {
    pub items: [T; 4],
    pub count: usize,
}

impl<T: Copy> Few<T> {
    // A list without items; `blank` stands where none is kept.
    pub(crate) fn new(blank: T) -> Few<T>
        ensures { Holds4 T result [] }
    {
        Few {
            items: [blank; 4],
            count: 0,
        }
    }

    pub(crate) fn keep(&mut self, item: T)
        requires { self.old.count + 1 < 2 ^ 64 }
        ensures counts { self.new.count ≡ self.old.count + 1 }
        ensures holds { (all : List T) → Holds4 T self.old all → Holds4 T self.new (all ++ item ∷ []) }
    {
        if self.count < 4 {
            self.items[self.count] = item;
        }
        self.count += 1;
    }
}
