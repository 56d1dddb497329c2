// Nodes and inferences.

use circuit_model::limits::{MOST_CYCLES, MOST_NETS};

/// How many chains of cells there are: one for each cell that a present may have.
pub const CELLS: usize = MOST_NETS as usize * MOST_CYCLES as usize;

/// The numbers of nodes are below it.
pub const MOST_NODES: usize = 4_294_967_296;

/// The number of a node, below [`MOST_NODES`].
#[derive(Clone, Copy, Debug, PartialEq, Eq)]
pub struct NodeId {
    pub place: usize,
}

/// The name of a recorded inference. It stays while the inference is recorded.
#[derive(Clone, Copy, Debug, PartialEq, Eq)]
pub struct JustId {
    pub place: usize,
}

/// What an inference leads to: a node, or that there is a clash.
#[derive(Clone, Copy, Debug, PartialEq, Eq)]
pub enum Target {
    Node(NodeId),
    Clash,
}

/// An inference (de Kleer 1986, a justification): the nodes that it goes from, each once, what it leads to, and the slot of the
/// component that makes it, below [`SLOTS`](environment_sets::SLOTS). None makes that of two words at one cell.
#[derive(Clone, Copy, Debug, PartialEq, Eq)]
pub struct Inferred {
    pub from: [Option<NodeId>; 2],
    pub to: Target,
    pub maker: Option<u16>,
}
