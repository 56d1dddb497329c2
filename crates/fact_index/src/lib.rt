// Where facts stand in a list: each is found by itself, and those of a cell one after another.
#![tactic(auto)]

mod gathering;
mod index;
mod links;

pub use index::FactIndex;
