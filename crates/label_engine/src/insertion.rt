// What is to be put in.

use circuit_model::Fact;
use environment_sets::Env;

/// An environment that is to be put in at a fact, or as a nogood. Its source is the slot of the component that led from
/// smaller environments to it, where that is known.
#[derive(Clone, Copy)]
pub struct Insertion {
    pub target: Option<Fact>,
    pub env: Env,
    pub source: Option<u16>,
}
