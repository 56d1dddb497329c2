// Antichains of environments.
#![tactic(auto)]

mod antichain;
mod completing;
mod nearest;
mod signed_list;

pub use antichain::{Antichain, Inserted};
