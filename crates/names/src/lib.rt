// The names of a sheet: its first fault, or the sheet that it comes to.
#![tactic(auto)]

mod declared;
mod entries;
mod layout;
mod lines;
mod lookup;
mod resolve;
mod scope;
mod summary;
mod text;

ghost use Rattle.names.specs.Faults.{OneVerdict};

pub use summary::Contents;
pub use text::read;

// A sheet as written comes to exactly one tree, or has exactly one first fault.
pub fn one_verdict()
    ensures { OneVerdict }
{}
