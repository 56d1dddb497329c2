//! A session: the present, what is remembered of it and of the earlier presents, its changes and its questions.
#![tactic(auto)]

mod answers;
mod asking;
mod changes;
mod explaining;
mod refusals;
mod remembering;
mod session;

pub use answers::Answer;
pub use refusals::{Refusal, Stop};
pub use session::Session;
