// One change of what stands for a present: a component or a measurement comes or goes, and the load is looked at.
#![tactic(auto)]

mod laws;
mod remembered;

pub use laws::{loads_are_the_presents, loads_are_unique};
pub use remembered::{Remembered, Stop};
