//! Back Pointer Cyclic Commit: a record says which version of its page was current when it was
//! written, so that the versions between the two count as aborted, and nothing must go before a page
//! is written again.
#![tactic(auto)]

mod audit;
mod bpcc;
mod loose;

pub use bpcc::Bpcc;
