// Derivations: what shows that a fact follows from an environment of a present, or that the environment clashes; and the
// closing of one environment, round by round.
#![tactic(auto)]

mod checker;
mod closed;
mod closing;
pub mod conclusions;
mod derivation;
mod facts;
mod held;
mod looking;
mod premises;
mod written;

pub use checker::check;
pub use closed::Closed;
pub use closing::close;
pub use derivation::{Derivation, Ending, Goal, Step, Steps};
pub use written::{facts_known, number_of};
