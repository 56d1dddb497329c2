// Records in lists by head, under keys that stay.
#![tactic(auto)]

mod chains;
mod lane;

pub use chains::{Chains, Key, Returned};
