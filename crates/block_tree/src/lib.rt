// Blocks: the component that a block is, and the circuit with a block opened.
#![tactic(auto)]

mod laws;
mod parts;
mod using;

pub use laws::opened_clashes_lift;
pub use using::use_block;
