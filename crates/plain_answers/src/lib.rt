// What follows from an environment, and labels, nogoods, conflicts and diagnoses of small presents by trying all
// environments, as the definitions say them.
#![tactic(auto)]

mod answers;
mod closing;
mod closure;
mod environment;
mod flags;
mod keeping;
mod sizes;
mod subsets;

pub use answers::{conflicts, diagnoses, label, nogoods};
pub use closing::{Closed, close_environment};
pub use closure::Closure;
pub use environment::Environment;
pub use subsets::environments;
