// What known words say about the others.
#![tactic(auto)]

mod copies;
mod gates;
mod inference;
mod products;
mod sums;

pub use inference::{Inference, has_open_port, infer};
