//! The image file of a device: its configuration and what its flash holds, in their one spelling.
#![tactic(auto)]

mod error;
mod header;
mod image;
mod in_use;
mod sizes;
mod slots;
mod theorems;
mod writing;

pub use error::ImageError;
pub use image::{read_image, take_image};
pub use in_use::take_image_in_use;
pub use theorems::{images_in_use, one_spelling, spelled_images};
pub use writing::{blank_image, into_image, write_image};
