//! Simple Cyclic Commit: a record counts where the walk along the links comes back to it or passes a
//! newer record, and the records of an aborted transaction go before their pages are written again.
#![tactic(auto)]

mod audit;
mod scc;

pub use scc::Scc;
