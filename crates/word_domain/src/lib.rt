// Widths, and arithmetic on words of a width.
#![tactic(auto)]

mod width;

pub use width::{WIDEST, Width};
