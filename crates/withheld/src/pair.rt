// A field and a number that no mark may hold together.
#[derive(Clone, Copy, PartialEq, Eq, Debug, Default)]
pub struct Pair {
    pub field: usize,
    pub number: u16,
}
