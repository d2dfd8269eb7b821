//! The file of a flash that is a file: a store, and what a loss of power leaves of it.
#![tactic(auto)]

mod real_store;
mod store;
mod theorems;

pub use real_store::RealStore;
pub use store::{Store, StoreError};
pub use theorems::{calls_can_be_done, loss_examples};
