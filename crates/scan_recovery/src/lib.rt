//! Opening a device from its flash alone: the tables that it keeps, or the first law that the flash
//! breaks.
#![tactic(auto)]

mod audit;
mod endings;
mod error;
mod held;
mod opening;
mod own_links;
mod recovery;
mod removable;
mod scan;
mod shared_links;
mod spare;
mod twins;

pub use error::RecoverError;
pub use recovery::recover;
