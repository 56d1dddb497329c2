// The inferences that remembered components make from known words.
#![tactic(auto)]

mod antecedents;
mod asking;
mod choices;
mod components;
mod consequences;
mod inferred;
mod near;
mod search;

pub use inferred::Inferred;
pub use near::{cells_near, cells_of};
pub use search::{find_made_by, find_uses};
