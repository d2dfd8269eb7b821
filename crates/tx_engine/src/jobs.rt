ghost use Rattle.std.specs.Prelude.{◌≤◌, vec_capacity};
ghost use Rattle.tx_engine.specs.declared.jobs.TheConstants.{MOST_DIES};

use std::alloc::{AllocError, Global};
use tx_types::{Rec, Slot};

/// The most dies that a device has.
const MOST_DIES: usize = 16;

/// A program that is done with others: its slot, and the record of the next page of a transaction.
#[derive(Clone, Copy, PartialEq, Eq)]
pub struct Job {
    pub slot: Slot,
    pub rec: Rec,
}

/// Room for a program in each die, so that no call but `new` takes memory.
#[derive(Drop)]
pub struct JobBuffer {
    pub(crate) jobs: Vec<Job>,
    ghost enough: { MOST_DIES ≤ vec_capacity jobs },
}

impl JobBuffer {
    /// Takes the memory.
    pub fn new(alloc: Global) -> Result<JobBuffer, AllocError> {
        Ok(JobBuffer {
            jobs: Vec::with_capacity(alloc, MOST_DIES)?,
        })
    }
}
