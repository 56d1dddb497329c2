// Generated circuits to work on.
#![tactic(auto)]

mod boxes;
mod making;

pub use making::{MOST_BOXES, MakeStop, polyboxes};
