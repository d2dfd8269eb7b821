//! The report that explains the verdict on each page of a list of records.
#![tactic(auto)]

mod backwards;
mod line;
mod number;
mod records;
mod report;
mod theorems;
mod walk;

pub use report::explain;
pub use theorems::{lines_are_short, pages_are_those_of_records, walk_decides, worked_reports};
