//! What the programs share that load image files from a desk: how a file is loaded and read, why a call
//! is refused, and how that is said; and the statuses, with that where the words cannot be read.
#![tactic(auto)]

mod loading;
mod refusal;
mod saying;
mod status;
mod stop;
mod theorems;
mod words;

pub use loading::{load_file, open_image};
pub use refusal::ImageRefusal;
pub use saying::{desk_fault, no_memory, refuse, say};
pub use status::Status;
pub use stop::ImageStop;
pub use theorems::torn_files;
pub use words::status_of_bad_args;
