// The first minimal hitting sets of conflicts, by cost.
#![tactic(auto)]

mod bound;
mod branch;
mod laws;
mod listing;
mod own;
mod problem;
mod rounds;
mod waiting;

pub use laws::firsts_are_fronts;
pub use listing::first;
