// What holds while labels are brought up to date, from one waiting inference to the next, over whatever families of sets
// are kept. The crate has definitions and proofs, and no program: an engine shows that its operations are the ones that
// are defined here, and by that its labels are exact where nothing waits any more.
#![tactic(auto)]

mod laws;

pub use laws::{inferences_are_sound, uncovered_pairs_fall};
