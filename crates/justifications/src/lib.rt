// Nodes and recorded inferences, linked so that nothing is searched through all that is kept.
#![tactic(auto)]

mod links;
mod model;
mod nodes;
mod table;
mod weave;

pub use model::{CELLS, Inferred, JustId, MOST_NODES, NodeId, Target};
pub use weave::Weave;
