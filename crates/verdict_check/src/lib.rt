//! Whether a report is that on a list of records: it is read once, line by line, against the list. Nothing
//! of what writes reports is called, and no memory is taken.
#![tactic(auto)]

mod check;
mod checker;
mod expected;
mod line;
mod older;
mod places;
mod reading;
mod records;
mod straddlers;
mod theorems;
mod walk_end;
mod walk_ends;

pub use check::check_report;
pub use theorems::yes_means;
