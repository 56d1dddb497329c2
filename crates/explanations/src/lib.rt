// Canonical derivations: how a fact follows from an environment of a present, and how an environment clashes.
#![tactic(auto)]

mod explaining;
mod forcing;
mod marks;
mod supports;
mod walk;
mod words;

pub use explaining::{explain_clash, explain_value};
