// The best next measurement of a present.
#![tactic(auto)]

mod labels;
mod planner;
mod scores;
mod weights;

pub use planner::{Probe, best_probe};
