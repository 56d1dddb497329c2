//! The session language: what each line asks, or the fault that it has.
#![tactic(auto)]

mod block_checks;
mod cells;
mod changes;
mod checks;
mod commands;
mod faults;
mod finding;
mod laws;
mod lines;
mod misfits;
mod mode_checks;
mod name_list;
mod parts;
mod places;
mod placing;
mod queries;
mod requests;
mod show;
mod use_checks;
mod words;

pub use checks::{check_cell, check_reading};
pub use faults::LineFault;
pub use laws::{faults_come_in_order, show_and_read_back};
pub use lines::read_line;
pub use misfits::Misfit;
pub use name_list::NameList;
pub use placing::place;
pub use requests::{Change, Query, Request};
pub use show::{put_cell, write_present};
pub use words::{is_number, number_of};
