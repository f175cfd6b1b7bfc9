// A vector of fixed capacity that is copied as a value, which those of `arrayvec` are not. The places past its elements
// are filled, and mean nothing. Its fields are open, as those of a table are: whoever fills them proves that the count
// is within the places.
ghost use Rattle.std.specs.Prelude.{◌≡◌, ◌+◌, ◌^◌, ◌<◌, ◌≤◌, ◌==◌, [], ◌∷◌, ◌++◌, length, take};
ghost use Rattle.std.specs.Cmp.{on_equiv, on_per};
ghost use Rattle.std.specs.Iterator.Runs.{EveryRun, ItemsMapTo};
ghost use Rattle.std.specs.Slice.Iter.{iter_rest, iter_steps};
ghost use Rattle.std.specs.Cmp.Lexicographic.{pointwise, lists_per, lists_equiv};

use std::marker::Model;
use std::ops::DerefSlice;
use std::{fmt, slice};

#[derive(Clone, Copy)]
pub struct CopyVec<T, const CAP: usize> {
    pub places: [T; CAP],
    pub count: usize,
}

impl<T, const CAP: usize> Model for CopyVec<T, CAP> {
    ghost use Rattle.std.specs.Prelude.{◌≡◌, ◌≤◌, ◌++◌, length, take, drop};
    ghost use Rattle.std.proofs.Common.{arith, take-append-drop, length-take-le};
    ghost use Rattle.grammar.specs.CopyVec.{CopyVec as Items};

    ghost Value = { Items T };

    ghost view = { λ v. record { items = take v.count v.places; spare = drop v.count v.places } };

    ghost invariant = { λ v. (v.count ≤ CAP) × (length v.places ≡ CAP) };

    ghost inverse = { λ v. record { places = v.items ++ v.spare; count = length v.items } };

    ghost inverse_ok = { λ v h i. record {
      places = take-append-drop v.count v.places i;
      count = length-take-le v.count v.places (omega (arith, h.0, h.1)) i;
    } };
}

impl<T: Copy, const CAP: usize> CopyVec<T, CAP> {
    // A vector without elements; `blank` fills its places.
    pub fn new(blank: T) -> Self
        ensures { result.items ≡ [] }
    {
        CopyVec {
            places: [blank; CAP],
            count: 0,
        }
    }

    // The first `length` of some elements, or all of them where they are no more.
    pub fn front(elements: [T; CAP], length: usize) -> Self
        ensures { result.items ≡ take length elements }
    {
        CopyVec {
            places: elements,
            count: length.min(CAP),
        }
    }

    // Appends an element.
    pub(crate) fn push(&mut self, element: T)
        requires { length self.old.items < CAP }
        ensures items { self.new.items ≡ self.old.items ++ element ∷ [] }
        ensures len { length self.new.items ≡ length self.old.items + 1 }
    {
        self.places[self.count] = element;
        self.count += 1;
    }
}

impl<T, const CAP: usize> CopyVec<T, CAP> {
    // How many elements there are.
    pub fn len(&self) -> usize
        ensures value { result ≡ length self.now.items }
        ensures fits { result ≤ CAP }
    {
        self.count
    }

    // Whether no more fit.
    pub fn is_full(&self) -> bool
        ensures value { result ≡ (length self.now.items == CAP) }
        ensures fits { length self.now.items ≤ CAP }
    {
        self.len() == CAP
    }
}

impl<T, const CAP: usize> DerefSlice for CopyVec<T, CAP> {
    type Elem = T;

    ghost deref_gives = { λ v xs. (xs ≡ v.items) × (length xs ≤ CAP) };

    fn deref(&self) -> &[T] {
        &self.places[..self.count]
    }
}

impl<'a, T, const CAP: usize> IntoIterator for &'a CopyVec<T, CAP> {
    type Item = &'a T;

    type IntoIter = slice::Iter<'a, T>;

    ghost into_iter_gives = { λ v it. (iter_rest it ≡ v.now.items) × (length (iter_rest it) < 2 ^ 64)
        × EveryRun (iter_steps {A = T}) (λ p. ItemsMapTo p (λ x. x.now) (iter_rest p.from)) };

    fn into_iter(self) -> slice::Iter<'a, T> {
        self[..].iter()
    }
}

impl<T: Copy + Default, const CAP: usize> Default for CopyVec<T, CAP> {
    ghost is_default = { λ v. v.items ≡ [] };

    fn default() -> Self {
        CopyVec::new(T::default())
    }
}

impl<T: PartialEq, const CAP: usize> PartialEq for CopyVec<T, CAP> {
    ghost eq = { λ v w. pointwise T.eq v.items w.items };

    ghost laws = { on_per (λ v. v.items) (lists_per T.laws) };

    fn eq(&self, other: &Self) -> bool {
        self[..] == other[..]
    }
}

impl<T: Eq, const CAP: usize> Eq for CopyVec<T, CAP> {
    ghost laws = { on_equiv (λ v. v.items) (lists_equiv T.Eq.laws) };
}

impl<T: fmt::Debug, const CAP: usize> fmt::Debug for CopyVec<T, CAP> {
    fn fmt<W: fmt::Write>(&self, f: &mut fmt::Formatter<W>) -> fmt::Result {
        f.debug_list().entries(&self[..]).finish()
    }
}
