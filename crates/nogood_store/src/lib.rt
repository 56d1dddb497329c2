// Nogoods.
#![tactic(auto)]

mod store;

pub use antichains::Inserted;
pub use store::Nogoods;
