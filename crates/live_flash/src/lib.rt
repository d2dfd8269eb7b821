//! A flash that is an image file in its live format. What was programmed is written at a flush, which is one sync.
#![tactic(auto)]

mod cutting;
mod follower;
mod holding;
mod keeping;
mod live_flash;
mod loads;
mod writing;

pub(crate) use follower::Follower;
pub use live_flash::LiveFlash;
