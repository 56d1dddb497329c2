// Inferences, as they are recorded.

use circuit_model::Fact;

/// An inference from at most two facts, each once: that they force a fact, or, where `to` is `None`, that they clash.
/// It is made by the component at a slot; that two words at one cell clash is made by none.
#[derive(Clone, Copy)]
pub struct Inferred {
    pub first: Option<Fact>,
    pub second: Option<Fact>,
    pub to: Option<Fact>,
    pub maker: Option<u16>,
}
