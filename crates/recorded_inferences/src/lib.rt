// Recorded inferences by their facts, linked so that nothing is searched through all that is kept.
#![tactic(auto)]

mod adding;
mod dropping;
mod records;
mod telling;

pub use records::Records;
