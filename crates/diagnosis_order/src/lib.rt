// The minimal hitting sets of conflicts, by cost.
#![tactic(auto)]

mod laws;
mod listing;
mod ranks;

pub use laws::{
    cost_listings_are_unique, cost_order_is_strict, cost_order_is_total, cost_order_is_transitive,
};
pub use listing::{DiagnosisStop, diagnoses};
