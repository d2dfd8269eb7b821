//! The open transactions of a device, in the order of their opening: which pages they write, at which versions, and how
//! far they are. No flash is in it.
#![tactic(auto)]

mod open_transactions;
mod pending_writes;
mod refusals;

pub use open_transactions::OpenTransactions;
