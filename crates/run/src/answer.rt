// What a run answers.

// How a run ends: with a mark, at a dead end, or spent.
#[derive(Clone, Copy, PartialEq, Eq, Debug)]
pub enum Ended {
    Mark,
    DeadEnd,
    Spent,
}

// How a run ended, and how many entries its trace has. A draw's end is an `Option`: none where its numbers ran out.
// Inside, the end is the numbers of a mark, or why there is none.
#[derive(Clone, Copy, PartialEq, Eq, Debug)]
pub struct Ran<E = Ended> {
    pub ended: E,
    pub length: usize,
}
