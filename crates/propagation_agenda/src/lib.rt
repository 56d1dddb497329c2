// What waits while labels are brought up to date, and who chooses what comes next.
#![tactic(auto)]

mod agenda;
mod picker;

pub use agenda::Agenda;
pub use picker::{Newest, Oldest, Picker, Seeded};
