// Calls as data, and what a session of calls comes to.
use walk::answer::Tallies;

// A call on a walk, its sheet and its store: a draw and a check with a fuel of their own. An enum and no closures,
// which would be no plainer: the contract names the list of calls.
#[derive(Clone, Copy, Debug, PartialEq, Eq)]
pub enum Call {
    Next,
    Draw(u8),
    Check(u8),
    Tally,
    Close,
}

// How many entries of the list of marks are filled, and whether a next answered finished. No Option: the entries stand
// whether finished was answered or not.
#[derive(Clone, Copy, Debug, PartialEq, Eq, Default)]
pub struct Taken {
    pub entries: usize,
    pub finished: bool,
}

// What a session took, and the closing figures where it closed its walk.
#[derive(Clone, Copy, Debug, PartialEq, Eq)]
pub struct Session {
    pub taken: Taken,
    pub figures: Option<Tallies>,
}
