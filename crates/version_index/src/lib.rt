//! The tables that a device keeps of its flash: a recount of the slots as they were noted.
#![tactic(auto)]

mod clearing;
mod committing;
mod counting;
mod deciding;
mod filling;
mod index;
mod losing;
mod mentioning;
mod numbering;
mod placing;

pub use index::Index;
