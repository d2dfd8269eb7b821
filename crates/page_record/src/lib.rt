//! The spare area of a programmed slot, which says what the slot holds: a record in its one spelling.
#![tactic(auto)]

mod error;
mod layout;
mod reading;
mod theorems;
mod writing;

pub use error::SpareError;
pub use reading::read_spare;
pub use theorems::{first_rule, one_spelling, spelled_records};
pub use writing::write_spare;
