//! The command line of the program that draws the flash of an image file: what its words ask for, what it prints, which
//! status it returns, and what its pictures show.
#![tactic(auto)]

mod call;
mod drawing;
mod opening;
mod theorems;
mod words;

pub use call::top;
pub use theorems::{overviews_tell, pictures_tell, selections_tell, svgs_tell};
