// Labels of facts.
#![tactic(auto)]

mod labels;

pub use antichains::Inserted;
pub use labels::Label;
