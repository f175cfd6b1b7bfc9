// Runs of a sheet over any store: along recorded picks, or by the numbers of a source.
#![tactic(auto)]

pub mod admit;
mod along;
pub mod answer;
mod argument;
mod choice;
mod compare;
pub mod draw;
mod finish;
pub mod follow;
pub mod goal;
mod guide;
pub mod lists;
mod pass;
mod report;
mod settle;
mod stack;
mod stop;
mod trail;
mod turn;
mod work;
