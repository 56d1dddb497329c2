// Nodes and nogoods over all remembered assumptions, kept exact.
#![tactic(auto)]

mod engine;
mod insertion;
mod questions;
mod recording;
mod sources;
mod update;

pub use engine::{Engine, Stop};
