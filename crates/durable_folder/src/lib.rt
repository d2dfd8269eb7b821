//! A folder of files, what a loss of power leaves of it, and a save that survives one.
#![tactic(auto)]

mod answers;
mod folder;
mod in_place;
mod loading;
mod locking;
mod new_file;
mod renewing;
mod replacing;
mod saving;
mod syncing;
mod temporary_names;

pub use folder::{Folder, Found, Lock};
pub use loading::{Loaded, load};
pub use locking::{claim, save_held};
pub use renewing::save_locked;
pub use saving::save;
