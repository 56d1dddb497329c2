// What is remembered: assumptions, each at a slot.
#![tactic(auto)]

mod slots;
mod table;

pub use slots::Slots;
