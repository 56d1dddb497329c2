// The conflicts and the diagnoses of the present that slots stand for, as sets of positions of components.
#![tactic(auto)]

mod listing;
mod rows;
mod sets;

pub use listing::{conflicts_of, diagnoses_of, first_of};
