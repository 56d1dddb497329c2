// The minimal hitting sets of a list of conflicts, and of each of its prefixes.
#![tactic(auto)]

mod extension;
mod hitter;
mod laws;
mod levels;
mod own;

pub use hitter::Hitter;
pub use laws::minimal_by_own;
pub use own::own_slots;
