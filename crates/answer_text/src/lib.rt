//! The texts of answers: labels, sets of components, next measurements and derivations, written without memory.
#![tactic(auto)]

mod chosen;
mod derivations;
mod labels;
mod laws;
mod probes;
mod sets;
mod texts;

pub use derivations::write_derivation;
pub use labels::write_label;
pub use laws::valid_derivations_can_be_written;
pub use probes::{put_best, write_probe};
pub use sets::write_sets;
