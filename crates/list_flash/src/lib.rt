//! A flash that is the list of its operations, and wears out.
#![tactic(auto)]

mod entries;
mod firing;
mod list_flash;
mod registers;

pub use list_flash::ListFlash;
