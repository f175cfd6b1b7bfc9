// The withheld layer: it stands on any store and is a store, without the marks that hold one of its pairs.
#![tactic(auto)]

pub mod layer;
pub mod layered;
pub mod pair;
pub mod setting;
