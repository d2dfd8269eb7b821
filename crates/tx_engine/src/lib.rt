//! The device: pages that are read, and transactions that are opened and written page by page, over power cuts and
//! faults of its flash.
#![tactic(auto)]

mod advancing;
mod always;
mod batches;
mod closing;
mod collecting;
mod device;
mod jobs;
mod programming;
mod readying;
mod retiring;
mod settling;
mod store;
pub mod theorems;
mod writing;

pub use always::device_facts;
pub use array_machine::{
    Aborted, Collected, Fault, Mark, Moved, Progress, ReadAnswer, ReadError, StepError, SubmitError,
};
pub use device::{Device, MountError, RetireError};
