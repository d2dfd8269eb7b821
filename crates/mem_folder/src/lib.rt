//! A folder in memory that tells through which states it goes.
#![tactic(auto)]

mod change;
mod fault;
mod files;
mod finding;
mod folder;
mod folders;
mod glance;
mod log;
mod naming;
mod note;
mod reading;
mod surviving;
mod writing;

pub use change::Left;
pub use fault::Fault;
pub use files::{MemFile, MemPlace};
pub use folder::MemFolder;
pub use surviving::{load_after_loss, save_durably};
