// The best next measurement, where the diagnoses are sets of positions of components.
#![tactic(auto)]

mod asking;
mod laws;
mod sets;

pub use asking::probe_of;
pub use laws::few_diagnoses_are_listed;
