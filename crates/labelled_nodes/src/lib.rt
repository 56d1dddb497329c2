// The facts that were met, each with its label, and the nogoods.
#![tactic(auto)]

mod counting;
mod node;
mod nodes;

pub use node::Node;
pub use nodes::{Nodes, has_support, is_same_fact};
