// How much a sheet has.

#[derive(Clone, Copy, PartialEq, Eq, Debug)]
pub struct Contents {
    pub fields: u64,
    pub rules: u64,
    pub formulas: u64,
}
