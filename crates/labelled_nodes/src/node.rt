// A fact with its label.

use circuit_model::Fact;
use label_algebra::Label;

/// A fact with its label.
#[derive(Drop)]
pub struct Node {
    pub fact: Fact,
    pub label: Label,
}
