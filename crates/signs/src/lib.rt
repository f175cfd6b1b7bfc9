// Cuts a sheet's text into words, numbers and signs, or says where it cannot be cut.
#![tactic(auto)]

mod byte;
mod counts;
mod cut;
mod token;

pub use counts::{TokenCounts, survey};
pub use cut::next;
pub use token::{Placed, Sign, Token};
