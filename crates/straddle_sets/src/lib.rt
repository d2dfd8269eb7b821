//! Back Pointer Cyclic Commit: which records straddle a version that an aborted transaction wrote,
//! and which of them is responsible for a loose record.
#![tactic(auto)]

mod straddling;
mod theorems;

pub use straddling::{answers_for, responsible, responsible_of, responsible_version, straddles};
pub use theorems::{responsible_records, straddlers_by_place};
