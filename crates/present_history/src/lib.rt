//! What takes the changes of a present back, and the list of them that a session keeps.
#![tactic(auto)]

mod history;
mod laws;
mod undoing;

pub use history::History;
pub use laws::{
    changes_are_kept, changes_are_undone, earlier_are_as_many, earlier_are_lawful,
    earlier_are_taken, measured_are_listed, retracted_are_few, retracted_stood,
    what_stood_is_retracted,
};
pub use undoing::{Undoing, take_back, undoing_of};
