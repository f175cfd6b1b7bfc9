// A layer over a store: up to 32 pairs, and the store below.
use crate::pair::Pair;
use arrayvec::ArrayVec;

#[derive(PartialEq, Eq, Debug, Drop)]
pub struct Withheld<S> {
    pub(crate) pairs: ArrayVec<Pair, 32>,
    pub(crate) lower: S,
}
